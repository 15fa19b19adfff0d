//! Doers that work in lanes, and a gate at which two of them meet.
use crate::meeting::Meeting;
use crate::teller::Teller;
use lanes::{Doer, NoGate, run_lanes};
use std::process::Abort;
use std::sync::Wait;
use std::thread::Threads;

fn tellers<R: AllocGlobal + Abort>(rt: &R, count: u32, lines: u32) -> Vec<Teller> {
    let mut all = Vec::new(rt.alloc());
    for lane in 0..count {
        all.push(Teller::new(lane, lines))
            .expect(rt, "memory for a teller");
    }
    all
}

/// So many doers come back in order, each having worked once.
fn come_back<R: AllocGlobal + Abort + Threads + Wait + Sync>(rt: &R, count: u32) {
    let worked = run_lanes(rt, rt, tellers(rt, count, 5), &NoGate);
    assert!(rt; worked.len() == count as usize);
    for (place, teller) in worked.iter().enumerate() {
        assert!(rt; teller.lane() as usize == place && teller.told() == 5);
    }
}

#[test]
fn each_doer_works_once_and_all_come_back_in_order(rt: HostRuntime) {
    for count in [0, 1, 2, 3, 64].iter() {
        come_back(&rt, *count);
    }
}

/// Two lanes come back, and neither waited in vain.
fn two_meet<R: AllocGlobal + Abort + Threads + Wait + Sync>(rt: &R) {
    let gate = Meeting::new();
    let worked = run_lanes(rt, rt, tellers(rt, 2, 4), &gate);
    assert!(rt; worked.len() == 2 && !gate.gave_up());
}

#[test]
fn two_lanes_meet_before_each_line(rt: HostRuntime) {
    two_meet(&rt);
}

/// One lane after the other waits in vain.
fn one_by_one_gives_up<R: Abort + Threads + Wait + Sync>(rt: &R, first: u32, second: u32) {
    let gate = Meeting::new();
    Teller::new(first, 2).work(rt, rt, &gate);
    Teller::new(second, 2).work(rt, rt, &gate);
    assert!(rt; gate.gave_up());
}

#[test]
fn lanes_one_after_another_do_not_meet(rt: HostRuntime) {
    one_by_one_gives_up(&rt, 0, 1);
    one_by_one_gives_up(&rt, 1, 0);
}

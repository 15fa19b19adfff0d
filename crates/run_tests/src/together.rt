//! Several lanes: how many there may be, and that they meet.
use crate::meeting::Meeting;
use crate::setup::{SCHEMA, done, is_legal, run_at};
use ahi_cli::Status;
use report_judge::LIMITS;
use std::process::Abort;
use std::sync::Wait;
use std::thread::Threads;

/// A lane whose lines 2 and 3 are gets.
const TWO_GETS: &str = "# says nothing\nget t a\nget t b\n";

/// Whether lanes that meet at a gate are done and reported legally, so that each get is told that
/// nothing was ever there; whether one waits in vain, as it is said here; and whether they come
/// there so often.
fn are_gated<R: AllocGlobal + Abort + Threads + Wait + Sync>(
    rt: &R,
    lanes: &[&str],
    is_in_vain: bool,
    counts: [u64; 5],
) -> bool {
    let gate = Meeting::new();
    let (status, report) = run_at(rt, &gate, SCHEMA, lanes);
    status == Status::Done
        && is_legal(rt.alloc(), LIMITS, SCHEMA, lanes, report.as_str())
        && gate.gave_up() == is_in_vain
        && gate.counts() == counts
}

#[test]
fn two_lanes_meet_before_each_line(rt: HostRuntime) {
    assert!(rt; are_gated(&rt, &[TWO_GETS; 2], false, [1, 1, 1, 1, 0]));
}

#[test]
fn a_lane_alone_meets_none(rt: HostRuntime) {
    assert!(rt; are_gated(&rt, &[TWO_GETS], true, [1, 1, 0, 0, 0]));
}

/// As many lanes as there may be.
static MOST: [&str; 31] = ["get t a\n"; 31];

#[test]
fn as_many_lanes_run_as_blocks_allow(rt: HostRuntime) {
    let _report = done(&rt, SCHEMA, &MOST);
}

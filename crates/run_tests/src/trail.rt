//! The pass that lanes leave.
use crate::setup::{Faults, LANE, NO_FAULTS, run_leaving};
use ahi_cli::{EnginePass, Status};
use script::DEFAULT_SIZES;
use std::process::Abort;
use std::sync::Wait;
use std::thread::Threads;

const LANES: [&str; 3] = [LANE; 3];

/// How many of three lanes are reported that leave their pass here, and none where they aren't done.
fn leave<R: AllocGlobal + Abort + Threads + Wait + Sync>(
    rt: &R,
    trail: &mut Option<EnginePass>,
) -> usize {
    let (status, report) = run_leaving(rt, &LANES, NO_FAULTS, trail);
    if status == Status::Done {
        report.split("\nlane ").count().wrapping_sub(1)
    } else {
        0
    }
}

/// Whether the pass of three lanes is that of all of them.
fn is_of_all(pass: &EnginePass) -> bool {
    pass.numbers() == (0, 3) && *pass.sizes() == DEFAULT_SIZES
}

#[test]
fn done_lanes_leave_the_pass_of_all(rt: HostRuntime) {
    let mut trail = None;
    let lanes = leave(&rt, &mut trail);
    let pass = trail.expect(&rt, "a pass");
    assert!(rt; lanes == 3 && is_of_all(&pass));
}

/// Lanes that aren't done, what fails, and the status.
static UNDONE: [(&[&str], Faults<'static>, Status); 6] = [
    (&[], NO_FAULTS, Status::Usage),
    (&["get t\n"], NO_FAULTS, Status::Script),
    (
        &LANES,
        Faults {
            load: &[0],
            put: &[],
        },
        Status::ShelfFault,
    ),
    (
        &LANES,
        Faults {
            load: &[],
            put: &[0],
        },
        Status::SinkFault,
    ),
    (
        &LANES,
        Faults {
            load: &[],
            put: &[9],
        },
        Status::SinkFault,
    ),
    (&[LANE; 32], NO_FAULTS, Status::TooLarge),
];

/// Whether lanes end so and take away the pass that an earlier run left.
fn leaves_none<R: AllocGlobal + Abort + Threads + Wait + Sync>(
    rt: &R,
    lanes: &[&str],
    faults: Faults<'_>,
    status: Status,
) -> bool {
    let mut trail = None;
    let was_left = leave(rt, &mut trail) == 3 && trail.is_some();
    let (ended, _) = run_leaving(rt, lanes, faults, &mut trail);
    was_left && ended == status && trail.is_none()
}

#[test]
fn no_pass_is_left_by_a_run_that_is_not_done(rt: HostRuntime) {
    for (lanes, faults, status) in UNDONE.iter() {
        assert!(rt; leaves_none(&rt, lanes, *faults, *status));
    }
}

//! Runs in which pages go to their images and come back all the time, since frames are few.
use crate::drawing::slices_of;
use crate::rows::{Look, Numbers, puts_and_gets};
use crate::setup::{LANE, MEMORY, SCHEMA, legal_within};
use crate::trees::counted;
use report_judge::{LIMITS, Limits};
use std::process::Abort;
use std::sync::Wait;
use std::thread::Threads;

/// How many changes there are in the legal report of these lanes over the index `t`, with so many
/// blocks and pages.
fn changes_under<R: AllocGlobal + Abort + Threads + Wait + Sync>(
    rt: &R,
    blocks: u64,
    pages: u64,
    lanes: &[&str],
) -> u64 {
    let sized = format!(in rt.alloc(); "blocks {blocks}\npages {pages}\n{SCHEMA}").expect(
        rt, MEMORY,
    );
    let limits = Limits { pages, ..LIMITS };
    let report = legal_within(rt, limits, sized.as_str(), SCHEMA, lanes);
    counted(report.as_str(), "changes t ")
}

/// How many of 2,000 ascending rows with 2,000 bytes are put by sixteen frames and so many pages, where
/// a get of each follows.
fn rows_within<R: AllocGlobal + Abort + Threads + Wait + Sync>(rt: &R, pages: u64) -> u64 {
    let numbers = Numbers {
        first: 0,
        factor: 1,
        step: 1,
        limit: 2000,
        count: 2000,
    };
    let look = Look {
        before: 0,
        value: 2000,
    };
    let lane = puts_and_gets(rt, numbers, look);
    changes_under(rt, 16, pages, &[lane.as_str()])
}

/// Eight such rows fill a leaf, and four stay on the left of each split: so 499 leaves and a root
/// have them all, and with one page less the last four find none.
#[test]
fn sixteen_frames_are_enough_for_five_hundred_pages(rt: HostRuntime) {
    assert!(rt; rows_within(&rt, 500) == 2000 && rows_within(&rt, 499) == 1996);
}

/// The lane of every eighth number from this one on, below 2,400, with values of 1,000 bytes.
fn every_eighth<R: AllocGlobal + Abort>(rt: &R, first: u64) -> String {
    let numbers = Numbers {
        first,
        factor: 1,
        step: 8,
        limit: 2400,
        count: 300,
    };
    let look = Look {
        before: 0,
        value: 1000,
    };
    puts_and_gets(rt, numbers, look)
}

fn eight_lanes<R: AllocGlobal + Abort>(rt: &R) -> Vec<String> {
    let mut lanes = Vec::new(rt.alloc());
    for first in 0..8u64 {
        lanes.push(every_eighth(rt, first)).expect(rt, MEMORY);
    }
    lanes
}

/// How many changes there are where eight lanes put rows into the same leaves, of which there are
/// several times as many as frames.
fn changes_of_eight<R: AllocGlobal + Abort + Threads + Wait + Sync>(rt: &R) -> u64 {
    let lanes = eight_lanes(rt);
    let texts = slices_of(rt, &lanes);
    changes_under(rt, 72, LIMITS.pages, &texts)
}

#[test]
fn eight_lanes_share_few_frames(rt: HostRuntime) {
    for _ in 0..4 {
        assert!(rt; changes_of_eight(&rt) == 2400);
    }
}

#[test]
fn as_many_lanes_run_as_frames_allow(rt: HostRuntime) {
    let _changes = changes_under(&rt, 520, LIMITS.pages, &[LANE; 64]);
}

//! Runs by schemas that set sizes.
use crate::reported::is_reported;
use crate::rows::{Look, Numbers, add_asks, add_puts};
use crate::setup::{SCHEMA, legal_within};
use crate::trees::counted;
use report_judge::{LIMITS, Limits};
use std::process::Abort;
use std::sync::Wait;
use std::thread::Threads;

/// Nine puts of rows with values of 2,000 bytes, and a get of the third.
fn nine_puts<R: AllocGlobal + Abort>(rt: &R) -> String {
    let look = Look {
        before: 0,
        value: 2000,
    };
    let third = Numbers {
        first: 2,
        factor: 1,
        step: 1,
        limit: 9,
        count: 1,
    };
    let nine = Numbers {
        first: 0,
        count: 9,
        ..third
    };
    let mut lane = String::new(rt.alloc());
    add_puts(rt, &mut lane, nine, look);
    add_asks(rt, &mut lane, "get t", third, look);
    lane
}

/// The legal report of these puts where there are two pages.
fn nine_within<R: AllocGlobal + Abort + Threads + Wait + Sync>(rt: &R) -> String {
    let limits = Limits { pages: 2, ..LIMITS };
    let lane = nine_puts(rt);
    legal_within(rt, limits, "pages 2\nindex t 1\n", SCHEMA, &[lane.as_str()])
}

/// Whether eight puts have room, the ninth finds none, and the ten answers are those of an index
/// that has learnt nothing.
fn has_eight_rows(report: &str) -> bool {
    counted(report, "changes t ") == 8
        && report.contains("\n9 space-full cold no\n")
        && report.ends_with(
            "hit 0 off 0 cold 10 short 0 part-busy 0 no-entry 0 block-busy 0 clock 0 unequal 0 by-clock 0 by-busy 0 by-moved 0 by-last 0 built 0 same 0 arena 0 raced 0 worn 0\nend\n",
        )
}

#[test]
fn two_pages_are_full_at_the_ninth_large_row(rt: HostRuntime) {
    let is_full = has_eight_rows(nine_within(&rt).as_str());
    assert!(rt; is_full);
}

/// A third change finds no room in the list, and the two before are still seen.
#[test]
fn a_list_of_two_changes_is_full_at_the_third(rt: HostRuntime) {
    let schema = "max_changes 2\nindex t 1\n";
    let lane = "put t a x\nput t b y\nput t c z\nget t b\nget t c\n";
    let told =
        "1 ok @1 cold no\n2 ok @2 cold no\n3 log-full 2 cold no\n4 found y @2 cold no\n5 absent @2 cold no\nchanges t 2\n1 1 1 put a x\n2 1 2 put b y\n";
    assert!(rt; is_reported(&rt, schema, lane, told));
}

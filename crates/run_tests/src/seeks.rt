//! Seeks over trees, judged by the naive reading: over leaves that are full or empty, at both ends
//! of an index, and while another lane empties leaves.
use crate::drawing::{schema_text, seek_lane_text};
use crate::rows::{Look, Numbers, add_asks, add_puts, bytes_of};
use crate::setup::legal_report;
use crate::trees::changes_of;
use std::process::Abort;
use std::sync::Wait;
use std::thread::Threads;

/// The words of a seek in each mode.
static SEEKS: [&str; 4] = ["seek t ge", "seek t g", "seek t le", "seek t l"];

/// So many numbers from this one on, in steps.
fn numbers_from(first: u64, step: u64, count: u64) -> Numbers {
    Numbers {
        first,
        factor: 1,
        step,
        limit: 1_000_000,
        count,
    }
}

/// Adds a seek by each of the first keys in each mode.
fn add_all_seeks<R: AllocGlobal + Abort>(rt: &R, lane: &mut String, keys: u64, look: Look) {
    for words in SEEKS.iter() {
        add_asks(rt, lane, words, numbers_from(0, 1, keys), look);
    }
}

/// Puts so many rows in, first those with even numbers and then the others. An ascending split
/// leaves its left page half full, so each leaf but the last is full at the end.
fn filled<R: AllocGlobal + Abort>(rt: &R, rows: u64, look: Look) -> String {
    let mut lane = String::new(rt.alloc());
    add_puts(rt, &mut lane, numbers_from(0, 2, rows / 2), look);
    add_puts(rt, &mut lane, numbers_from(1, 2, rows / 2), look);
    lane
}

/// With the longest keys eight rows fill a leaf, and twenty pointers an inner page.
const LONG: Look = Look {
    before: 760,
    value: 1240,
};

/// How many leaves the rows of the next test fill.
const LEAVES: u64 = 60;

/// Takes out the rows of two of every four leaves, from this place on. A leaf between two full ones
/// stays when it is empty; and so do two beside each other that have different parents.
fn empty_half<R: AllocGlobal + Abort>(rt: &R, lane: &mut String, place: u64) {
    for leaf in 0..LEAVES {
        if leaf.wrapping_add(place) % 4 < 2 {
            add_asks(rt, lane, "del t", numbers_from(8 * leaf, 1, 8), LONG);
        }
    }
}

/// How many changes there are, where each key and each mode is sought over such leaves.
fn changes_over_empty<R: AllocGlobal + Abort + Threads + Wait + Sync>(rt: &R, place: u64) -> u64 {
    let mut lane = filled(rt, 8 * LEAVES, LONG);
    empty_half(rt, &mut lane, place);
    add_all_seeks(rt, &mut lane, 8 * LEAVES, LONG);
    changes_of(rt, &[lane.as_str()])
}

/// From each place 480 puts and 240 dels are made.
#[test]
fn rows_are_sought_over_empty_leaves(rt: HostRuntime) {
    for place in 0..4 {
        assert!(rt; changes_over_empty(&rt, place) == 720);
    }
}

/// 72 rows with such values fill a leaf.
const SHORT: Look = Look {
    before: 0,
    value: 200,
};

/// How many changes there are, where one lane puts 2,000 rows in and takes them out again, and the
/// other seeks.
fn changes_beside_seeks<R: AllocGlobal + Abort + Threads + Wait + Sync>(rt: &R) -> u64 {
    let mut emptying = filled(rt, 2_000, SHORT);
    add_asks(rt, &mut emptying, "del t", numbers_from(0, 1, 2_000), SHORT);
    let mut seeking = String::new(rt.alloc());
    add_all_seeks(rt, &mut seeking, 2_000, SHORT);
    changes_of(rt, &[emptying.as_str(), seeking.as_str()])
}

#[test]
fn rows_are_sought_while_leaves_are_emptied(rt: HostRuntime) {
    assert!(rt; changes_beside_seeks(&rt) == 4_000);
}

/// A drawn lane of 200,000 lines, half of them seeks by tuples of one to four fields.
fn drawn_lane<R: AllocGlobal + Abort>(rt: &R) -> String {
    let value = bytes_of(rt, 'v', 200);
    seek_lane_text(rt, 5, 200_000, 1_000, value.as_str())
}

#[test]
fn many_drawn_seeks_are_reported_legally(rt: HostRuntime) {
    let schema = schema_text(&rt, 4);
    let lane = drawn_lane(&rt);
    let _report = legal_report(&rt, schema.as_str(), &[lane.as_str()]);
}

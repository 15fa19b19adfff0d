//! Lanes are drawn alike by the same numbers alone.
use crate::drawing::{lane_text, schema_text};
use std::process::Abort;

fn count_of_lines(text: &str, verb: &str) -> u64 {
    let mut count: u64 = 0;
    for line in text.split('\n') {
        if line.starts_with(verb) {
            count = count.wrapping_add(1);
        }
    }
    count
}

/// A lane of 400 lines, drawn by this seed and this number.
fn drawn<R: AllocGlobal + Abort>(rt: &R, seed: u64, lane: u64) -> String {
    lane_text(rt, seed, lane, 400, 3, 6)
}

/// Whether that seed and that number draw this lane.
fn is_drawn<R: AllocGlobal + Abort>(rt: &R, text: &str, seed: u64, lane: u64) -> bool {
    drawn(rt, seed, lane).as_str() == text
}

#[test]
fn lanes_are_drawn_by_their_numbers(rt: HostRuntime) {
    let lane = drawn(&rt, 7, 1);
    let is_again = is_drawn(&rt, lane.as_str(), 7, 1);
    assert!(rt;
        is_again && !is_drawn(&rt, lane.as_str(), 7, 2) && !is_drawn(&rt, lane.as_str(), 8, 1)
    );
}

/// Verbs, and how many lines of 400 each has at least.
static VERBS: [(&str, u64); 5] = [
    ("get ", 60),
    ("seek ", 40),
    ("put ", 60),
    ("set ", 30),
    ("del ", 70),
];

#[test]
fn each_verb_is_drawn(rt: HostRuntime) {
    let lane = drawn(&rt, 7, 1);
    for (verb, least) in VERBS.iter() {
        assert!(rt; count_of_lines(lane.as_str(), verb) >= *least);
    }
}

#[test]
fn indexes_are_named_by_their_numbers(rt: HostRuntime) {
    let schema = schema_text(&rt, 3);
    assert!(rt; schema.as_str() == "index t0 1\nindex t1 2\nindex t2 3\n");
}

//! Drawn lanes through the program, judged by the naive reading.
use crate::drawing::{lane_texts, schema_text, slices_of};
use crate::setup::legal_report;
use std::process::Abort;
use std::sync::Wait;
use std::thread::Threads;

/// How often the eight lanes are run.
const RUNS: u32 = 20;

/// Lanes that are drawn: the seed, how many there are, and how many lines, indexes and keys.
type Drawn = (u64, u64, u64, u64, u64);

/// The legal report of drawn lanes.
fn report_of<R: AllocGlobal + Abort + Threads + Wait + Sync>(rt: &R, drawn: Drawn) -> String {
    let (seed, count, lines, indexes, keys) = drawn;
    let schema = schema_text(rt, indexes);
    let lanes = lane_texts(rt, seed, count, lines, indexes, keys);
    let texts = slices_of(rt, &lanes);
    legal_report(rt, schema.as_str(), &texts)
}

/// How many of the further runs of drawn lanes are reported otherwise than the first; all legally.
fn count_others<R: AllocGlobal + Abort + Threads + Wait + Sync>(rt: &R, drawn: Drawn) -> u32 {
    let first = report_of(rt, drawn);
    let mut others: u32 = 0;
    for _ in 1..RUNS {
        if report_of(rt, drawn).as_str() != first.as_str() {
            others = others.wrapping_add(1);
        }
    }
    others
}

#[test]
fn eight_lanes_are_reported_legally_in_any_order(rt: HostRuntime) {
    assert!(rt; count_others(&rt, (1, 8, 2_500, 2, 6)) > 0);
}

/// A long lane, and eight lanes over many keys, which split the same pages.
static LONG: [Drawn; 2] = [(2, 1, 200_000, 3, 2_000), (3, 8, 20_000, 2, 20_000)];

#[test]
fn long_lanes_are_reported_legally(rt: HostRuntime) {
    for drawn in LONG.iter() {
        let _report = report_of(&rt, *drawn);
    }
}

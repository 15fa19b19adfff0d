//! Generated lanes over hostile bytes: each report is legal, where a plain byte stands for each percent
//! sign in the lane and in the report. So all is told as a plain map has it.
use crate::reading::{PLAIN, PRINTED, SCHEMA, UPPER, lane_text};
use crate::setup::{MEMORY, done, is_legal};
use crate::trees::counted;
use report_judge::LIMITS;
use std::process::Abort;
use std::sync::Wait;
use std::thread::Threads;

/// A report with a plain byte in the place of each percent sign, and so without escapes.
fn with_plain<R: AllocGlobal + Abort>(rt: &R, report: &str) -> String {
    let mut plain = String::new(rt.alloc());
    for letter in report.chars() {
        let kept = if letter == '%' { '$' } else { letter };
        plain.push(kept).expect(rt, MEMORY);
    }
    plain
}

/// The report of so many lines over so many keys, without escapes.
fn told_of<R: AllocGlobal + Abort + Threads + Wait + Sync>(
    rt: &R,
    lines: u64,
    keys: u64,
) -> String {
    let lane = lane_text(rt, lines, keys, &PRINTED, &UPPER);
    with_plain(rt, done(rt, SCHEMA, &[lane.as_str()]).as_str())
}

/// Whether each of the three indexes has more changes than this.
fn are_above(report: &str, changes: u64) -> bool {
    counted(report, "changes a ") > changes
        && counted(report, "changes b ") > changes
        && counted(report, "changes c ") > changes
}

/// Whether so many lines over so many keys are reported legally, each of the three indexes has more
/// changes than this, and no line is told that the space is full.
fn is_read_alike<R: AllocGlobal + Abort + Threads + Wait + Sync>(
    rt: &R,
    lines: u64,
    keys: u64,
    changes: u64,
) -> bool {
    let told = told_of(rt, lines, keys);
    let lane = lane_text(rt, lines, keys, &PLAIN, &PLAIN);
    is_legal(rt.alloc(), LIMITS, SCHEMA, &[lane.as_str()], told.as_str())
        && are_above(told.as_str(), changes)
        && !told.contains(" space-full ")
}

#[test]
fn a_lane_over_few_keys_is_read_alike(rt: HostRuntime) {
    assert!(rt; is_read_alike(&rt, 3_000, 12, 200));
}

#[test]
fn a_long_lane_over_many_keys_is_read_alike(rt: HostRuntime) {
    assert!(rt; is_read_alike(&rt, 200_000, 300, 15_000));
}

//! How long files, keys, values and lanes may be.
use crate::reported::is_reported;
use crate::rows::{Look, Numbers, bytes_of, puts_and_gets};
use crate::setup::{MEMORY, SCHEMA, ends, legal_report};
use crate::trees::{changes_of, counted};
use ahi_cli::Status;
use std::process::Abort;
use std::sync::Wait;
use std::thread::Threads;

/// The most bytes of all files: 64 MiB.
const MOST: usize = 64 * 1024 * 1024;

/// A comment that leaves no room behind the schema, or is so many bytes longer.
fn long_comment<R: AllocGlobal + Abort>(rt: &R, more: usize) -> String {
    bytes_of(rt, '#', (MOST - SCHEMA.len()).wrapping_add(more))
}

#[test]
fn files_have_64_mib_together(rt: HostRuntime) {
    let is_done = is_reported(&rt, SCHEMA, long_comment(&rt, 0).as_str(), "changes t 0\n");
    assert!(rt; is_done);
}

/// Whether a lane of one byte is too much behind this lane, and this lane behind it.
fn leaves_no_byte<R: AllocGlobal + Abort + Threads + Wait + Sync>(rt: &R, lane: &str) -> bool {
    ends(rt, SCHEMA, &[lane, "#"], Status::TooLarge, "too-large 2\n")
        && ends(rt, SCHEMA, &["#", lane], Status::TooLarge, "too-large 2\n")
}

/// Whether a lane alone is too long.
fn is_too_large<R: AllocGlobal + Abort + Threads + Wait + Sync>(rt: &R, lane: &str) -> bool {
    ends(rt, SCHEMA, &[lane], Status::TooLarge, "too-large 1\n")
}

#[test]
fn one_byte_more_is_too_long(rt: HostRuntime) {
    let is_full = leaves_no_byte(&rt, long_comment(&rt, 0).as_str());
    let is_long = is_too_large(&rt, long_comment(&rt, 1).as_str());
    assert!(rt; is_full && is_long);
}

/// A put and a get of a row with so many bytes before the seven digits of its key, and in its value.
fn row_lines<R: AllocGlobal + Abort>(rt: &R, before: usize, value: usize) -> String {
    let numbers = Numbers {
        first: 0,
        factor: 1,
        step: 1,
        limit: 1,
        count: 1,
    };
    puts_and_gets(rt, numbers, Look { before, value })
}

/// Whether a legal report has one change, and two answers of an index that has learnt nothing.
fn is_put_and_found(report: &str) -> bool {
    counted(report, "changes t ") == 1
        && report.ends_with(
            "hit 0 off 0 cold 2 short 0 part-busy 0 no-entry 0 block-busy 0 clock 0 unequal 0 by-clock 0 by-busy 0 by-moved 0 by-last 0 built 0 same 0 arena 0 raced 0 worn 0\nend\n",
        )
}

#[test]
fn the_longest_row_is_put_and_found(rt: HostRuntime) {
    let is_found = is_put_and_found(legal_report(
        &rt,
        SCHEMA,
        &[row_lines(&rt, 760, 2048).as_str()],
    ).as_str());
    assert!(rt; is_found);
}

/// Whether the put of such a row is refused as too long.
fn is_too_long<R: AllocGlobal + Abort + Threads + Wait + Sync>(
    rt: &R,
    before: usize,
    value: usize,
) -> bool {
    let lane = row_lines(rt, before, value);
    ends(
        rt,
        SCHEMA,
        &[lane.as_str()],
        Status::Script,
        "script 1 1 3\n",
    )
}

#[test]
fn a_longer_key_or_value_is_refused(rt: HostRuntime) {
    assert!(rt; is_too_long(&rt, 761, 1) && is_too_long(&rt, 0, 2049));
}

/// So many lines in turns: a put of a row, and its del.
fn lane_in_turns<R: AllocGlobal + Abort>(rt: &R, pairs: u32) -> String {
    let mut lane = String::new(rt.alloc());
    for _ in 0..pairs {
        lane.push_str("put t a x\ndel t a\n").expect(rt, MEMORY);
    }
    lane
}

#[test]
fn a_lane_of_more_than_a_million_changes_fills_its_list(rt: HostRuntime) {
    let _changes = changes_of(&rt, &[lane_in_turns(&rt, 500_050).as_str()]);
}

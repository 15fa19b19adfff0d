//! Reports of which something is missing, or to which something is added.
use crate::setup::{LINES, MEMORY, bad_line, report_of};
use std::process::Abort;

#[test]
fn an_empty_report_stops_at_its_first_line(rt: HostRuntime) {
    assert!(rt; bad_line(&rt, b"") == Some(1));
}

#[test]
fn nothing_stands_behind_the_end(rt: HostRuntime) {
    let mut report = report_of(&rt);
    assert!(rt; bad_line(&rt, &report) == None);
    report.push(b'\n').expect(&rt, MEMORY);
    assert!(rt; bad_line(&rt, &report) == Some(12));
}

#[test]
fn a_report_that_ends_early_lacks_its_next_line(rt: HostRuntime) {
    let mut report = Vec::new(rt.alloc());
    let mut line: u32 = 1;
    for text in LINES.iter() {
        assert!(rt; stops_within(&rt, &report, text, line));
        report.extend_from_slice(text).expect(&rt, MEMORY);
        line = line.wrapping_add(1);
    }
}

/// Whether a report that breaks off anywhere in a line stops at that line.
fn stops_within<R: AllocGlobal + Abort>(rt: &R, before: &[u8], text: &[u8], line: u32) -> bool {
    let mut report = before.to_vec(rt.alloc()).expect(rt, MEMORY);
    for byte in text {
        if bad_line(rt, &report) != Some(line) {
            return false;
        }
        report.push(*byte).expect(rt, MEMORY);
    }
    true
}

//! The other lines of a report, byte for byte.
use crate::files::{SCHEMA, lines_of};
use crate::setup::MEMORY;
use change_log::LaneChange;
use map_history::Counts;
use report_text::{change, changes_head, lane_head, report_end, report_head, stats};
use std::process::Abort;

/// A report of one lane that has no lines, with the statistics of another index.
const REPORT: &[u8] = b"ahi run\nlane 1\nchanges t 0\n\
    stats orders_2 hit 169 off 0 cold 134 short 0 part-busy 0 no-entry 0 \
    block-busy 0 clock 0 unequal 0 by-clock 0 by-busy 0 by-moved 0 by-last 0 built 1 same 0 \
    arena 0 raced 0 worn 18446744073709551615\nend\n";

/// The counts of an index that counted four of the words.
fn four_counts() -> Counts {
    let mut counts = Counts::none();
    counts.numbers[0] = 169;
    counts.numbers[2] = 134;
    counts.numbers[13] = 1;
    counts.numbers[17] = u64::MAX;
    counts
}

/// Such a report.
fn report<R: AllocGlobal + Abort>(rt: &R) -> Vec<u8> {
    let mut out = Vec::new(rt.alloc());
    report_head(&mut out).expect(rt, MEMORY);
    lane_head(&mut out, 1).expect(rt, MEMORY);
    changes_head(&mut out, "t", 0).expect(rt, MEMORY);
    stats(&mut out, "orders_2", &four_counts()).expect(rt, MEMORY);
    report_end(&mut out).expect(rt, MEMORY);
    out
}

#[test]
fn heads_and_counts_have_their_words(rt: HostRuntime) {
    assert!(rt; report(&rt).as_slice() == REPORT);
}

/// The number of a change, lane 1 up to the line that asks for it, and the text: a get is no change,
/// and has none.
type Printed = (u64, &'static [u8], &'static [u8]);

static CHANGES: [Printed; 5] = [
    (1, b"put t a x", b"1 1 1 put a x\n"),
    (2, b"\nput two a,%00 2", b"2 1 2 put a,%00 2\n"),
    (3, b"\n\n\n\nset two a,b ~", b"3 1 5 set a,b ~\n"),
    (2, b"\n\ndel t a", b"2 1 3 del a\n"),
    (2, b"\n\nget t a", b""),
];

/// The change is printed as the row says.
fn tells<R: AllocGlobal + Abort>(rt: &R, row: &Printed) -> bool {
    let (number, lane, text) = row;
    let lines = lines_of(rt, SCHEMA, lane);
    let made = LaneChange {
        number: *number,
        lane: 1,
        line: lines.first().expect(rt, "a line"),
    };
    let mut out = Vec::new(rt.alloc());
    change(&mut out, &made).expect(rt, MEMORY);
    out.as_slice() == *text
}

#[test]
fn changes_are_printed_as_the_report_has_them(rt: HostRuntime) {
    for row in CHANGES.iter() {
        assert!(rt; tells(&rt, row));
    }
}

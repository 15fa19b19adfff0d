//! Reports with another line in a line's place.
use crate::setup::{LINES, MEMORY, bad_line};
use std::process::Abort;

/// A line, from 0, what stands in its place, and the number of the line at which reading stops.
type Edit = (usize, &'static [u8], Option<u32>);

static EDITS: [Edit; 26] = [
    (0, b"ahi page\n", Some(1)),
    (0, b"ahi run\n\n", Some(2)),
    (1, b"lane 2\n", Some(2)),
    (1, b"", Some(2)),
    // Numbers and points are decimal, with no zero before them.
    (2, b"01 ok @1 cold no\n", Some(3)),
    (2, b"1 ok @01 cold no\n", Some(3)),
    (2, b"1 ok 1 cold no\n", Some(3)),
    (2, b"1 ok @18446744073709551616 cold no\n", Some(3)),
    // One space stands between words, and none behind the last.
    (2, b"1 ok  @1 cold no\n", Some(3)),
    (2, b"1 ok @1 cold no \n", Some(3)),
    (2, b"1 ok @1 cold no no\n", Some(3)),
    // A hit that was counted has no other note, and a search has a word of its own.
    (2, b"1 ok @1 hit no\n", Some(3)),
    (2, b"1 ok @1 - -\n", Some(3)),
    // A line is answered once, by a word that its operation may have.
    (2, b"1 ok @1 cold no\n1 ok @1 cold no\n", Some(4)),
    (2, b"1 absent @1 cold no\n", Some(3)),
    (3, b"2 found a x @1 cold no\n", Some(4)),
    // Bytes are escaped where they have to be, in lower case.
    (3, b"2 found %0A @1 cold no\n", Some(4)),
    (3, b"2 found %78 @1 cold no\n", Some(4)),
    (3, b"2 found %0a @1 cold no\n", None),
    // As many changes come as are said, each with its number.
    (6, b"changes t 3\n", Some(10)),
    (6, b"changes t 1\n", Some(9)),
    (7, b"2 1 1 put a x\n", Some(8)),
    // Statistics are those that the answers tell.
    (
        9,
        b"stats t hit 0 off 0 cold 5 short 0 part-busy 0 no-entry 0 block-busy 0 clock 0 unequal 0 \
        by-clock 0 by-busy 0 by-moved 0 by-last 0 built 0 same 0 arena 0 raced 0 worn 0\n",
        Some(10),
    ),
    // A lie has the form of a report.
    (5, b"4 absent @1 cold no\n", None),
    (5, b"4 absent @0 cold no\n", None),
    (7, b"1 1 1 put a y\n", None),
];

/// The report with another line in this one's place.
fn edited<R: AllocGlobal + Abort>(rt: &R, place: usize, text: &[u8]) -> Vec<u8> {
    let mut report = Vec::new(rt.alloc());
    for (i, line) in LINES.iter().enumerate() {
        let line = if i == place { text } else { line };
        report.extend_from_slice(line).expect(rt, MEMORY);
    }
    report
}

#[test]
fn a_line_of_another_form_is_the_one_that_is_told(rt: HostRuntime) {
    for (place, text, line) in EDITS.iter() {
        let report = edited(&rt, *place, text);
        assert!(rt; bad_line(&rt, &report) == *line);
    }
}

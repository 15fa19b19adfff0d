//! The lines of a scan, byte for byte.
use crate::setup::{MEMORY, tuple_of};
use map_history::{How, Note, Piece, Rows};
use report_text::scan_answer;
use std::process::Abort;

/// Three rows in the order of their keys.
static ROWS: [(&[&[u8]], &[u8]); 3] = [
    (&[b"a", b""], b"3"),
    (&[b"a", b"\x00"], b"2"),
    (&[b"ab", b""], b"1"),
];

/// A first piece with all of them.
const WHOLE: Piece = Piece {
    point: 3,
    count: 3,
    how: How::Cold,
    note: Note::No,
};

/// One with a row.
const FIRST: Piece = Piece {
    point: 3,
    count: 1,
    how: How::Cold,
    note: Note::No,
};

/// A later one with two.
const LATER: Piece = Piece {
    point: 5,
    count: 2,
    how: How::ByClock,
    note: Note::Dash,
};

/// The rows.
fn rows_of<R: AllocGlobal + Abort>(rt: &R) -> Rows {
    let mut rows = Rows::new(rt.alloc());
    for (key, value) in ROWS.iter() {
        rows.push(&tuple_of(rt, key), value).expect(rt, MEMORY);
    }
    rows
}

const IN_ONE: &[u8] = b"4 scan 1 3\npiece @3 3 cold no\nrow a,~ 3\nrow a,%00 2\nrow ab,~ 1\n";

const IN_TWO: &[u8] = b"4 scan 2 3\npiece @3 1 cold no\nrow a,~ 3\n\
    piece @5 2 by-clock -\nrow a,%00 2\nrow ab,~ 1\n";

#[test]
fn a_scan_has_its_pieces_with_their_rows(rt: HostRuntime) {
    let rows = rows_of(&rt);
    assert!(rt; rows.count() == 3);
    let (mut one, mut two) = (Vec::new(rt.alloc()), Vec::new(rt.alloc()));
    scan_answer(&mut one, 4, &[WHOLE], &rows).expect(&rt, MEMORY);
    assert!(rt; one.as_slice() == IN_ONE);
    scan_answer(&mut two, 4, &[FIRST, LATER], &rows).expect(&rt, MEMORY);
    assert!(rt; two.as_slice() == IN_TWO);
}

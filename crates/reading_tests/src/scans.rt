//! The pieces of a scan, with their rows.
use crate::setup::{MEMORY, SCHEMA};
use key_tuple::{Fields, Tuple};
use map_history::{How, Line, Note, Op};
use report_reading::{ReadPiece, ReadReport, ReadTold, ReportError, read_report};
use script::{MAX_FILE_BYTES, read_schema};
use std::process::Abort;

const SCANNED: &[u8] = b"ahi run\nlane 1\n4 scan 2 3\npiece @3 1 cold no\nrow a 3\n\
    piece @5 2 by-clock -\nrow b 2\nrow ~ 1\nchanges t 0\n\
    stats t hit 0 off 0 cold 1 short 0 part-busy 0 no-entry 0 block-busy 0 clock 0 unequal 0 \
    by-clock 1 by-busy 0 by-moved 0 by-last 0 built 0 same 0 arena 0 raced 0 worn 0\nend\n";

/// Two pieces are told, and one comes.
const LACKING: &[u8] = b"ahi run\nlane 1\n4 scan 2 1\npiece @3 1 cold no\nrow a 3\nchanges t 0\n";

/// The first piece has fewer rows than it tells, or more than the scan does.
const SHORT: &[u8] =
    b"ahi run\nlane 1\n4 scan 2 3\npiece @3 2 cold no\nrow a 3\npiece @5 1 by-clock -\n";

const LONG: &[u8] = b"ahi run\nlane 1\n4 scan 2 3\npiece @3 4 cold no\nrow a 3\n";

/// The last piece has fewer rows than are left.
const LEFT: &[u8] = b"ahi run\nlane 1\n4 scan 1 3\npiece @3 2 cold no\nrow a 3\n";

/// How a report is read of one scan, on line 4.
fn read<R: AllocGlobal + Abort>(rt: &R, report: &[u8]) -> Result<ReadReport, ReportError> {
    assert!(rt; report.len() <= MAX_FILE_BYTES);
    let schema = read_schema(rt.alloc(), SCHEMA).expect(rt, "a schema");
    assert!(rt; schema.fields.len() == 1);
    let from = Tuple::try_new(rt.alloc(), Vec::new(rt.alloc())).expect(rt, "a tuple");
    let op = Op::Scan {
        index: 0,
        from,
        to: None,
        limit: 9,
    };
    let lane = vec![in rt.alloc(); Line { line: 4, op }].expect(rt, MEMORY);
    read_report(rt.alloc(), &schema, &[lane], report)
}

fn bad_line<R: AllocGlobal + Abort>(rt: &R, report: &[u8]) -> Option<u32> {
    match read(rt, report) {
        Ok(_) => None,
        Err(ReportError::BadLine { line }) => Some(line),
        Err(ReportError::NoMemory) => rt.abort(),
    }
}

/// Whether the row at a place of a piece, from 0, is this.
fn has_row(piece: &ReadPiece, place: usize, field: &[u8], value: &[u8]) -> bool {
    if place >= piece.rows.count() {
        return false;
    }
    let row = piece.rows.row(place);
    row.count() == 1 && row.field(0) == field && row.value() == value
}

/// The pieces of a report's only answer.
fn pieces_of(read: &ReadReport) -> Option<&[ReadPiece]> {
    match &read.lanes.first()?.first()?.told {
        ReadTold::Pieces(pieces) => Some(pieces),
        ReadTold::Plain(_) => None,
    }
}

#[test]
fn a_scan_is_read(rt: HostRuntime) {
    let read = read(&rt, SCANNED).expect(&rt, "a report");
    let pieces = pieces_of(&read).expect(&rt, "pieces");
    assert!(rt; pieces.len() == 2);
    let (first, second) = (&pieces[0], &pieces[1]);
    assert!(rt; first.point == 3 && first.rows.count() == 1 && has_row(first, 0, b"a", b"3"));
    assert!(rt; first.columns.how == How::Cold && first.columns.note == Note::No);
    assert!(rt; second.point == 5 && second.rows.count() == 2);
    assert!(rt; has_row(second, 0, b"b", b"2") && has_row(second, 1, b"", b"1"));
    assert!(rt; second.columns.how == How::ByClock && second.columns.note == Note::Dash);
}

#[test]
fn pieces_and_rows_are_as_many_as_are_told(rt: HostRuntime) {
    assert!(rt; bad_line(&rt, LACKING) == Some(6));
    assert!(rt; bad_line(&rt, SHORT) == Some(6));
    assert!(rt; bad_line(&rt, LONG) == Some(4));
    assert!(rt; bad_line(&rt, LEFT) == Some(4));
}

//! Scans of an index whose rows stand on four leaves, of a leaf that is left of them, and of none.
ghost use Rattle.index_engine.specs.Engines.{IsOf};
ghost use Rattle.engine_tests.specs.Fields.{FirstHasFields};

use crate::asked::{Order, Run, Wanted, count_of};
use crate::claims::{ensure, ensure_at};
use crate::setup::{open, smallest, worked};
use crate::steps::step;
use index_engine::{Engine, EnginePass};
use key_tuple::{Fields, Tuple};
use map_history::{How, Note, Piece, Reply, Rows};
use std::alloc::Global;
use std::process::Abort;
use std::sync::Wait;

/// What a scan has to tell: from the row with a number on, or from the first one, and below another
/// one, if one is named; as many rows as these, at most. Its rows have numbers one after another, from
/// the first on, and it has pieces with so many rows, found so.
struct Wished {
    from: Option<u32>,
    to: Option<u32>,
    limit: u32,
    first: u32,
    pieces: &'static [(u32, How)],
}

/// A tuple of one field, the four bytes of a number, or one without a field.
fn tuple_of<R: Abort>(rt: &R, alloc: Global, number: Option<u32>) -> Tuple {
    let mut fields = Vec::new(alloc);
    if let Some(number) = number {
        let mut field = Vec::new(alloc);
        field
            .extend_from_slice(&number.to_be_bytes())
            .expect(rt, "a field");
        fields.push(field).expect(rt, "memory for a field");
    }
    Tuple::try_new(alloc, fields).expect(rt, "a tuple")
}

/// Whether there are pieces with so many rows, found so and read at the point; the first teaches what a
/// descent does, and the others nothing.
fn are_pieces(pieces: &[Piece], point: u64, wished: &[(u32, How)]) -> bool {
    let mut at = 0;
    for (count, how) in wished {
        let note = if at == 0 { Note::No } else { Note::Dash };
        match pieces.get(at) {
            Some(piece) => {
                if piece.point != point
                    || piece.count != *count
                    || piece.how != *how
                    || piece.note != note
                {
                    return false;
                }
            }
            None => return false,
        }
        at += 1;
    }
    at == pieces.len()
}

/// Whether the rows have these numbers one after another, from the first on.
fn are_rows(rows: &Rows, first: u32) -> bool {
    let mut number = first;
    for at in 0..rows.count() {
        let row = rows.row(at);
        if row.count() != 1 || row.field(0) != number.to_be_bytes().as_slice() {
            return false;
        }
        number = number.wrapping_add(1);
    }
    true
}

/// Whether a scan of an index without lessons tells what it has to at this point.
fn is_scanned<R: AllocGlobal + Abort + Wait>(
    rt: &R,
    engine: &Engine,
    pass: &mut EnginePass,
    point: u64,
    wished: &Wished,
) -> bool
    requires own { IsOf engine.now pass.old }
    requires fields { FirstHasFields engine.now 1 }
    ensures own { IsOf engine.now pass.new }
{
    let alloc = rt.alloc();
    let (from, to) = (
        tuple_of(rt, alloc, wished.from),
        tuple_of(rt, alloc, wished.to),
    );
    ensure(
        rt,
        from.count() <= 1 && to.count() <= 1,
        "no more fields than a key has",
    );
    ensure(rt, 0 < wished.limit, "a row at least");
    let (mut pieces, mut rows) = (Vec::new(alloc), Rows::new(alloc));
    let to = if wished.to.is_some() { Some(&to) } else { None };
    engine
        .scan(pass, 0, &from, to, wished.limit, &mut pieces, &mut rows, rt)
        .expect(rt, "memory for a scan");
    are_pieces(&pieces, point, wished.pieces) && are_rows(&rows, wished.first)
}

/// Each scan tells what it has to, after all this was asked; the point is that of each piece.
fn assert_scans<R: AllocGlobal + Abort + Wait>(
    rt: &R,
    asked: &[Run],
    point: u64,
    scans: &[Wished],
) {
    for (at, wished) in scans.iter().enumerate() {
        let (engine, mut pass) = open(rt, &smallest(100, 1000), 1, 1);
        let told = worked(rt, rt.alloc(), &engine, &mut pass, 1, asked);
        ensure(rt, told == count_of(asked), "the rows are there");
        ensure_at(
            rt,
            is_scanned(rt, &engine, &mut pass, point, wished),
            "scan",
            at,
        );
    }
}

/// Puts a row with a value of 1,000 bytes.
const PUT: Order = Order::Put((b"", 1000));

/// Forty such rows stand on leaves of 8, 8, 8 and 16.
static PUTS: [Run; 1] = [step!(1, 40, PUT, Wanted::Reply(Reply::Ok))];

/// How the pieces behind the first are found where no other pass is there.
const BY_CLOCK: How = How::ByClock;

/// The whole index, and parts of it: up to the limit, in a leaf and at its end; up to TO, in a leaf, at
/// a row and at a leaf's end, behind which no piece without rows comes; from a row on, and from behind
/// the last one; and with FROM above TO.
static SCANS: [Wished; 9] = [
    Wished {
        from: None,
        to: None,
        limit: 100,
        first: 1,
        pieces: &[(8, How::Cold), (8, BY_CLOCK), (8, BY_CLOCK), (16, BY_CLOCK)],
    },
    Wished {
        from: None,
        to: None,
        limit: 1,
        first: 1,
        pieces: &[(1, How::Cold)],
    },
    Wished {
        from: None,
        to: None,
        limit: 8,
        first: 1,
        pieces: &[(8, How::Cold)],
    },
    Wished {
        from: None,
        to: None,
        limit: 9,
        first: 1,
        pieces: &[(8, How::Cold), (1, BY_CLOCK)],
    },
    Wished {
        from: Some(7),
        to: Some(12),
        limit: 1_000_000,
        first: 7,
        pieces: &[(2, How::Cold), (3, BY_CLOCK)],
    },
    Wished {
        from: Some(3),
        to: Some(9),
        limit: 100,
        first: 3,
        pieces: &[(6, How::Cold)],
    },
    Wished {
        from: Some(39),
        to: None,
        limit: 100,
        first: 39,
        pieces: &[(2, How::Cold)],
    },
    Wished {
        from: Some(41),
        to: None,
        limit: 100,
        first: 41,
        pieces: &[(0, How::Cold)],
    },
    Wished {
        from: Some(9),
        to: Some(5),
        limit: 100,
        first: 9,
        pieces: &[(0, How::Cold)],
    },
];

#[test]
fn a_scan_goes_from_leaf_to_leaf(rt: HostRuntime) {
    assert_scans(&rt, &PUTS, 40, &SCANS);
}

/// All rows but the first go, and their leaves with them.
static DELS: [Run; 2] = [
    step!(1, 40, PUT, Wanted::Reply(Reply::Ok)),
    step!(2, 39, Order::Del, Wanted::Reply(Reply::Ok)),
];

/// The row that is left.
static LEFT: [Wished; 1] = [Wished {
    from: None,
    to: None,
    limit: 100,
    first: 1,
    pieces: &[(1, How::Cold)],
}];

#[test]
fn a_scan_of_what_is_left_on_one_leaf(rt: HostRuntime) {
    assert_scans(&rt, &DELS, 79, &LEFT);
}

/// Nothing, on the one leaf that an index begins with.
static NONE: [Wished; 1] = [Wished {
    from: None,
    to: None,
    limit: 1,
    first: 1,
    pieces: &[(0, How::Cold)],
}];

#[test]
fn a_scan_of_an_empty_index_has_a_piece_without_rows(rt: HostRuntime) {
    assert_scans(&rt, &[], 0, &NONE);
}

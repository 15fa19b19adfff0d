//! Two leaves beside each other, of which the right one is hashed by the first of two fields, with the
//! first row of each group: what a seek is told of the hash.
use crate::asked::{Asked, Order, Run, Wanted, add};
use crate::claims::ensure;
use crate::names::{Row, SIZES, name_of};
use crate::setup::counted_alone;
use key_tuple::Mode;
use map_history::{How, Reply};
use std::process::Abort;
use std::sync::Wait;

/// A row, or a tuple of so many of its fields, what is asked by that, what that has to be told, and how
/// often it is asked.
type Look = (Row, u8, Order, Wanted, u32);

/// What each put and each look is told.
const OK: Wanted = Wanted::Reply(Reply::Ok);

const FOUND: Wanted = Wanted::Reply(Reply::Found);

/// The rows are put on their leaves, of which that of `m` gets hashed. Each has as many bytes as a row
/// may have: so a leaf has room for five, and a sixth one splits it behind the second. The value of a
/// row begins as its name does. Groups of the last leaf are looked for until the index has learnt that
/// the first field tells them apart; and then the row with which the leaf of `m` begins, until that
/// leaf is hashed.
static UNTIL_HASHED: [Look; 10] = [
    (b"a1", 2, Order::Put((b"a1", 2048)), OK, 1),
    (b"c1", 2, Order::Put((b"c1", 2048)), OK, 1),
    (b"m5", 2, Order::Put((b"m5", 2048)), OK, 1),
    (b"m7", 2, Order::Put((b"m7", 2048)), OK, 1),
    (b"n1", 2, Order::Put((b"n1", 2048)), OK, 1),
    (b"o1", 2, Order::Put((b"o1", 2048)), OK, 1),
    (b"p1", 2, Order::Put((b"p1", 2048)), OK, 1),
    (b"q1", 2, Order::Put((b"q1", 2048)), OK, 1),
    (b"o1", 1, Order::Seek(Mode::Ge), FOUND, 40),
    (b"m5", 2, Order::Seek(Mode::Ge), FOUND, 130),
];

/// Only where the row that the hash leads to is the sought one, and its page alone shows that, it
/// is a hit: it is the first of its leaf, and there is a leaf to the left.
static CASES: [Look; 5] = [
    (
        b"m3",
        2,
        Order::Seek(Mode::Ge),
        Wanted::Found((b"m5", 2048), Some(How::Unequal)),
        1,
    ),
    (
        b"m5",
        2,
        Order::Seek(Mode::Ge),
        Wanted::Found((b"m5", 2048), Some(How::Hit)),
        1,
    ),
    (
        b"m5",
        1,
        Order::Seek(Mode::Ge),
        Wanted::Found((b"m5", 2048), Some(How::Unequal)),
        1,
    ),
    (
        b"m7",
        2,
        Order::Seek(Mode::Le),
        Wanted::Found((b"m7", 2048), Some(How::Unequal)),
        1,
    ),
    (
        b"z1",
        2,
        Order::Seek(Mode::Ge),
        Wanted::Absent(How::NoEntry),
        1,
    ),
];

/// What that asks.
fn run_of(look: &Look) -> Run {
    let (row, fields, order, wanted, times) = *look;
    Run {
        first: Asked {
            name: name_of(row, fields),
            order,
            wanted,
        },
        step: 0,
        rows: 1,
        times,
    }
}

/// The rows are put, and looked for until their leaf is hashed.
fn until_hashed<R: AllocGlobal + Abort>(rt: &R) -> Vec<Run> {
    let mut runs = Vec::new(rt.alloc());
    for look in UNTIL_HASHED.iter() {
        add(rt, &mut runs, run_of(look));
    }
    runs
}

/// A seek is told so, from this start.
fn assert_case<R: AllocGlobal + Abort + Wait>(rt: &R, case: &Look) {
    let mut runs = until_hashed(rt);
    add(rt, &mut runs, run_of(case));
    counted_alone(rt, &SIZES, 2, &runs);
}

#[test]
fn a_row_at_the_edge_of_its_leaf_is_a_hit_for_its_own_key_alone(rt: HostRuntime) {
    for case in CASES.iter() {
        assert_case(&rt, case);
    }
}

#[test]
fn one_leaf_is_hashed_and_has_one_group(rt: HostRuntime) {
    let counted = counted_alone(&rt, &SIZES, 2, &until_hashed(&rt));
    ensure(
        &rt,
        counted.leaves == 1 && counted.nodes == 1,
        "one leaf with one group",
    );
}

//! Pages of rows that went are merged, and their numbers are free again.
use crate::asked::{Asked, Name, Order, Run, Wanted, add};
use crate::claims::ensure;
use crate::setup::{asked_alone, counted_alone, smallest};
use crate::steps::{assert_told, step};
use map_history::Reply;
use std::process::Abort;
use std::sync::Wait;

/// Puts a row with a value of 1,000 bytes.
const PUT: Order = Order::Put((b"", 1000));

/// Forty rows with 1,000 bytes stand on leaves of 8, 8, 8 and 16, and there is no further page. With
/// four rows on the first leaf it and the next one have room on one page.
static DELS: [Run; 7] = [
    step!(1, 40, PUT, Wanted::Reply(Reply::Ok)),
    step!(2, 1, Order::Del, Wanted::Reply(Reply::Ok)),
    step!(3, 1, Order::Del, Wanted::Reply(Reply::Ok)),
    step!(4, 1, Order::Del, Wanted::Reply(Reply::Ok)),
    step!(41, 1, PUT, Wanted::Reply(Reply::SpaceFull)),
    step!(5, 1, Order::Del, Wanted::Reply(Reply::Ok)),
    step!(41, 1, PUT, Wanted::Reply(Reply::Ok)),
];

#[test]
fn a_light_leaf_is_merged_and_gives_its_page_back(rt: HostRuntime) {
    assert_told(&rt, 5, 100, &DELS);
}

/// Puts a row without a value.
const PUT_EMPTY: Order = Order::Put((b"", 0));

/// What so many rows are asked, from a number on and by a step, whose keys have as many bytes as a key
/// may have; and what each is replied.
fn long_run(first: u32, step: u32, rows: u32, order: Order, reply: Reply) -> Run {
    let name = Name {
        start: first,
        cut: None,
        length: 767,
    };
    Run {
        first: Asked {
            name,
            order,
            wanted: Wanted::Reply(reply),
        },
        step,
        rows,
        times: rows,
    }
}

/// How many rows with long keys 64 pages have room for, where they are put one after another.
fn room<R: AllocGlobal + Abort + Wait>(rt: &R) -> u32 {
    let puts = long_run(0, 1, 2000, PUT_EMPTY, Reply::Ok);
    let (rows, _) = asked_alone(rt, &smallest(64, 100_000), 1, &[puts]);
    rows
}

/// The parts of a round, in their order: so many rows are put in, for the next one there is no page,
/// and all go again, every other one first.
fn part_at(rows: u32, place: u32) -> Run {
    match place % 4 {
        0 => long_run(0, 1, rows, PUT_EMPTY, Reply::Ok),
        1 => long_run(rows, 1, 1, PUT_EMPTY, Reply::SpaceFull),
        2 => long_run(0, 2, rows.wrapping_add(1) / 2, Order::Del, Reply::Ok),
        _ => long_run(1, 2, rows / 2, Order::Del, Reply::Ok),
    }
}

/// Ten rounds, and then the rows are put in once more, and for the next one there is no page.
fn filled_often<R: AllocGlobal + Abort>(rt: &R, rows: u32) -> Vec<Run> {
    let mut runs = Vec::new(rt.alloc());
    for place in 0..42 {
        add(rt, &mut runs, part_at(rows, place));
    }
    runs
}

/// A leaf has room for 20 rows with long keys, and an inner page for as many pointers; so more than
/// 400 rows make three levels. The index is emptied ten times, and each time has as many rows again.
#[test]
fn a_tree_of_three_levels_is_emptied_and_filled_again(rt: HostRuntime) {
    let rows = room(&rt);
    ensure(&rt, rows > 400 && rows < 2000, "three levels");
    counted_alone(&rt, &smallest(64, 100_000), 1, &filled_often(&rt, rows));
}

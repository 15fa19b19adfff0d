//! The calls one after another, until the list is full.
use crate::asked::{Order, Run, Wanted};
use crate::steps::{assert_told, step};
use map_history::Reply;

/// What is asked of two rows, and at which point that is told. The first one has its last value at the
/// end.
static STEPS: [Run; 15] = [
    step!(1, 1, Order::Get, Wanted::Fresh(Reply::Absent, 0)),
    step!(1, 1, Order::Del, Wanted::Fresh(Reply::Absent, 0)),
    step!(1, 1, Order::Put((b"x", 1)), Wanted::Fresh(Reply::Ok, 1)),
    step!(1, 1, Order::Get, Wanted::Fresh(Reply::Found, 1)),
    step!(2, 1, Order::Get, Wanted::Fresh(Reply::Absent, 1)),
    step!(
        1,
        1,
        Order::Put((b"y", 1)),
        Wanted::Fresh(Reply::Duplicate, 1),
    ),
    step!(1, 1, Order::Del, Wanted::Fresh(Reply::Ok, 2)),
    step!(1, 1, Order::Get, Wanted::Fresh(Reply::Absent, 2)),
    step!(1, 1, Order::Put((b"z", 1)), Wanted::Fresh(Reply::Ok, 3)),
    step!(
        2,
        1,
        Order::Put((b"x", 1)),
        Wanted::Fresh(Reply::LogFull(3), 3),
    ),
    step!(1, 1, Order::Del, Wanted::Fresh(Reply::LogFull(3), 3)),
    step!(
        1,
        1,
        Order::Put((b"y", 1)),
        Wanted::Fresh(Reply::Duplicate, 3),
    ),
    step!(2, 1, Order::Del, Wanted::Fresh(Reply::Absent, 3)),
    step!(1, 1, Order::Get, Wanted::Fresh(Reply::Found, 3)),
    step!(1, 1, Order::Get, Wanted::Found((b"z", 1), None)),
];

#[test]
fn a_row_comes_and_goes_until_the_list_is_full(rt: HostRuntime) {
    assert_told(&rt, 1, 3, &STEPS);
}

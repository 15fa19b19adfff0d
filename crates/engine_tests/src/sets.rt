//! Sets one after another: until the list is full, and on a leaf without room.
use crate::asked::{Order, Run, Wanted};
use crate::steps::{assert_told, step};
use map_history::Reply;

/// What is asked of two rows, and at which point that is told. The first one has the value that it
/// could be given last.
static STEPS: [Run; 11] = [
    step!(1, 1, Order::Set((b"x", 1)), Wanted::Fresh(Reply::Absent, 0)),
    step!(1, 1, Order::Put((b"xy", 2)), Wanted::Fresh(Reply::Ok, 1)),
    step!(1, 1, Order::Set((b"zz", 2)), Wanted::Fresh(Reply::Ok, 2)),
    step!(1, 1, Order::Set((b"s", 1)), Wanted::Fresh(Reply::Ok, 3)),
    step!(1, 1, Order::Set((b"long", 4)), Wanted::Fresh(Reply::Ok, 4)),
    step!(
        1,
        1,
        Order::Set((b"even", 4)),
        Wanted::Fresh(Reply::LogFull(4), 4),
    ),
    step!(
        1,
        1,
        Order::Set((b"s", 1)),
        Wanted::Fresh(Reply::LogFull(4), 4),
    ),
    step!(
        1,
        1,
        Order::Set((b"longer", 6)),
        Wanted::Fresh(Reply::LogFull(4), 4),
    ),
    step!(2, 1, Order::Set((b"x", 1)), Wanted::Fresh(Reply::Absent, 4)),
    step!(1, 1, Order::Get, Wanted::Fresh(Reply::Found, 4)),
    step!(1, 1, Order::Get, Wanted::Found((b"long", 4), None)),
];

#[test]
fn a_value_is_set_until_the_list_is_full(rt: HostRuntime) {
    assert_told(&rt, 1, 4, &STEPS);
}

/// Sets the longest value that a row may have.
const LONGEST: Order = Order::Set((b"s", 2048));

/// What is asked where eight rows have a page. A row is charged 13 bytes more than its value of 2,000
/// has, of the page's 16,252: so the rows leave 148 bytes, of which each longer value takes 48.
static ROOM: [Run; 12] = [
    step!(1, 8, Order::Put((b"", 2000)), Wanted::Reply(Reply::Ok)),
    step!(1, 1, Order::Set((b"s", 2000)), Wanted::Reply(Reply::Ok)),
    step!(1, 1, LONGEST, Wanted::Reply(Reply::Ok)),
    step!(2, 1, LONGEST, Wanted::Reply(Reply::Ok)),
    step!(3, 1, LONGEST, Wanted::Reply(Reply::Ok)),
    step!(4, 1, LONGEST, Wanted::Reply(Reply::SpaceFull)),
    step!(9, 1, LONGEST, Wanted::Reply(Reply::Absent)),
    step!(4, 1, Order::Set((b"s", 1)), Wanted::Reply(Reply::Ok)),
    step!(4, 1, LONGEST, Wanted::Reply(Reply::SpaceFull)),
    step!(5, 1, Order::Del, Wanted::Reply(Reply::Ok)),
    step!(4, 1, LONGEST, Wanted::Reply(Reply::Ok)),
    step!(8, 1, Order::Get, Wanted::Reply(Reply::Found)),
];

#[test]
fn a_longer_value_wants_room_on_its_leaf(rt: HostRuntime) {
    assert_told(&rt, 1, 100, &ROOM);
}

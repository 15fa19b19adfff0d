//! Which put finds no page: so many rows are on each leaf.
use crate::asked::{Order, Run, Wanted};
use crate::steps::{assert_told, step};
use map_history::Reply;

/// Values of 1,000 and of 2,000 bytes.
const SHORT: Order = Order::Put((b"", 1000));

const LONG: Order = Order::Put((b"", 2000));

/// What each put is told for which there is a page, and the first one for which there is none.
const OK: Wanted = Wanted::Reply(Reply::Ok);

const FULL: Wanted = Wanted::Reply(Reply::SpaceFull);

/// So many pages, the puts that have room, and the next one, which has none. 16 rows with 1,000 bytes
/// fill a leaf, and ascending ones leave 8 on each leaf but the last. A root that is raised takes a
/// page, and each split another.
static PUTS: [(u32, &'static [Run]); 8] = [
    (1, &[step!(1, 16, SHORT, OK), step!(17, 1, SHORT, FULL)]),
    (2, &[step!(1, 16, SHORT, OK), step!(17, 1, SHORT, FULL)]),
    (3, &[step!(1, 24, SHORT, OK), step!(25, 1, SHORT, FULL)]),
    (4, &[step!(1, 32, SHORT, OK), step!(33, 1, SHORT, FULL)]),
    (5, &[step!(1, 40, SHORT, OK), step!(41, 1, SHORT, FULL)]),
    (6, &[step!(1, 48, SHORT, OK), step!(49, 1, SHORT, FULL)]),
    (1, &[step!(1, 8, LONG, OK), step!(9, 1, LONG, FULL)]),
    (2, &[step!(1, 8, LONG, OK), step!(9, 1, LONG, FULL)]),
];

#[test]
fn leaves_are_as_full_as_they_can_be(rt: HostRuntime) {
    for (pages, steps) in PUTS.iter() {
        assert_told(&rt, *pages, 100, steps);
    }
}

/// Eight rows with 2,000 bytes fill the only leaf: the ninth finds no page.
static AFTER: [Run; 9] = [
    step!(1, 8, LONG, OK),
    step!(9, 1, LONG, FULL),
    step!(1, 1, Order::Get, Wanted::Reply(Reply::Found)),
    step!(9, 1, Order::Get, Wanted::Reply(Reply::Absent)),
    step!(9, 1, Order::Put((b"v", 1)), OK),
    step!(10, 1, LONG, FULL),
    step!(2, 1, Order::Del, OK),
    step!(10, 1, Order::Put((b"", 1900)), OK),
    step!(10, 1, Order::Get, Wanted::Reply(Reply::Found)),
];

#[test]
fn an_index_without_a_page_goes_on(rt: HostRuntime) {
    assert_told(&rt, 2, 100, &AFTER);
}

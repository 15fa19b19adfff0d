//! Reports with one lie each.
use crate::judging::by_hand::{LANES, REPORT, SCHEMA};
use crate::judging::cases::{Edits, Written, assert_judged};
use report_judge::{LIMITS, Lie};

/// The list of `t` with the changes of lane 1 before those of lane 2, and the points of that list.
const BY_LANES: Edits = &[
    ("6 ok @4", "6 ok @2"),
    ("\n2 ok @2", "\n2 ok @3"),
    ("3 ok @3", "3 ok @4"),
    (
        "2 2 2 del a\n3 2 3 put b w\n4 1 6 put a y\n",
        "2 1 6 put a y\n3 2 2 del a\n4 2 3 put b w\n",
    ),
];

/// The report of two lanes with a lie, and how that is refused; and that of two lanes that put the
/// same row, of which one change serves one line.
static LIES: [Written; 2] = [
    Written {
        schema: SCHEMA,
        lanes: &LANES,
        report: REPORT,
        limits: LIMITS,
        cases: &[
            (
                "swapped answers",
                &[
                    ("3 found x @1", "3 absent @1"),
                    ("5 absent @2", "5 found x @2"),
                ],
                Err(Lie::Wrong { lane: 1, line: 3 }),
            ),
            (
                "a dropped change",
                &[("t 4", "t 3"), ("4 1 6 put a y\n", "")],
                Err(Lie::Wrong { lane: 1, line: 6 }),
            ),
            (
                "a wrong point",
                &[("4 found y @4", "4 found y @3")],
                Err(Lie::Wrong { lane: 2, line: 4 }),
            ),
            (
                "a point that goes back",
                &[("7 found w @4", "7 found w @3")],
                Err(Lie::Back { lane: 1, line: 7 }),
            ),
            (
                "a point that comes too early",
                &[("1 duplicate @1", "1 duplicate @4")],
                Err(Lie::Back { lane: 2, line: 2 }),
            ),
            (
                "a change that is seen before it is made",
                &[("5 found x @1", "5 absent @2")],
                Err(Lie::Back { lane: 2, line: 6 }),
            ),
            (
                "a point that never comes",
                &[("7 found w @4", "7 found w @5")],
                Err(Lie::Wrong { lane: 1, line: 7 }),
            ),
            (
                "a change of another lane",
                &[("4 1 6 put a y", "4 2 6 put a y")],
                Err(Lie::Unasked {
                    index: 0,
                    change: 4,
                }),
            ),
            (
                "a change that nobody asks",
                &[("4 1 6 put a y", "4 1 6 put a x")],
                Err(Lie::Unasked {
                    index: 0,
                    change: 4,
                }),
            ),
            (
                "a change of another key",
                &[("4 1 6 put a y", "4 1 6 put b y")],
                Err(Lie::Unasked {
                    index: 0,
                    change: 4,
                }),
            ),
            (
                "a change of another index",
                &[("1 1 8 put a,b x", "1 1 2 put a x")],
                Err(Lie::Unasked {
                    index: 1,
                    change: 1,
                }),
            ),
            (
                "changes in the order of lanes",
                BY_LANES,
                Err(Lie::Unlawful {
                    index: 0,
                    change: 2,
                }),
            ),
            (
                "a found value that isn't there",
                &[("4 found y @4", "4 found z @4")],
                Err(Lie::Wrong { lane: 2, line: 4 }),
            ),
            (
                "a duplicate where the key is absent",
                &[("1 duplicate @1", "1 duplicate @0")],
                Err(Lie::Wrong { lane: 2, line: 1 }),
            ),
            (
                "ok twice",
                &[("5 absent @2", "5 ok @2")],
                Err(Lie::Wrong { lane: 1, line: 5 }),
            ),
            (
                "a change twice",
                &[("t 4", "t 5"), ("changes u", "5 1 6 put a y\nchanges u")],
                Err(Lie::Unasked {
                    index: 0,
                    change: 5,
                }),
            ),
            (
                "a missing answer line",
                &[("7 found w @4 cold no\n", "")],
                Err(Lie::Form { line: 7 }),
            ),
        ],
    },
    Written {
        schema: "index t 1\n",
        lanes: &["put t a x\n"; 2],
        report: "ahi run\nlane 1\n1 ok @1 cold no\nlane 2\n1 duplicate @1 cold no\nchanges t 1\n1 1 1 put a x\nstats t hit 0 off 0 cold 2 short 0 part-busy 0 no-entry 0 block-busy 0 clock 0 unequal 0 by-clock 0 by-busy 0 by-moved 0 by-last 0 built 0 same 0 arena 0 raced 0 worn 0\nend\n",
        limits: LIMITS,
        cases: &[
            ("a change that serves one line", &[], Ok(())),
            (
                "a change that serves two",
                &[("duplicate", "ok")],
                Err(Lie::Wrong { lane: 2, line: 1 }),
            ),
        ],
    },
];

#[test]
fn each_lie_is_refused(rt: HostRuntime) {
    assert_judged(&rt, &LIES);
}

//! A report of sets, written by hand: it is legal, and with a lie it isn't.
use crate::edited::{Edit, Written};
use report_judge::Lie;

static SETS: Written = Written {
    schema: "index t 1\n",
    lane: "set t a x\nput t a x\nset t a y\nget t a\nset t a y\n",
    report: "ahi run\nlane 1\n1 absent @0 cold no\n2 ok @1 cold no\n3 ok @2 cold no\n4 found y @2 cold no\n\
        5 ok @3 cold no\nchanges t 3\n1 1 2 put a x\n2 1 3 set a y\n3 1 5 set a y\n",
    answers: 5,
};

/// The answers, and the first change.
const TRUE_START: &str =
    "1 absent @0 cold no\n2 ok @1 cold no\n3 ok @2 cold no\n4 found y @2 cold no\n5 ok @3 cold no\nchanges t 3\n1 1 2 put a x\n";

/// The same where the set of a row that isn't there is told `ok`.
const FALSE_START: &str =
    "1 ok @1 cold no\n2 duplicate @1 cold no\n3 ok @2 cold no\n4 found y @2 cold no\n5 ok @3 cold no\nchanges t 3\n1 1 1 set a x\n";

/// The report as it is, and with a lie.
static EDITS: [Edit; 9] = [
    ("ahi run", "ahi run", Ok(())),
    (
        TRUE_START,
        FALSE_START,
        Err(Lie::Unlawful {
            index: 0,
            change: 1,
        }),
    ),
    (
        "set a y\n3",
        "put a y\n3",
        Err(Lie::Unasked {
            index: 0,
            change: 2,
        }),
    ),
    (
        "2 1 3 set a y",
        "2 1 3 set a x",
        Err(Lie::Unasked {
            index: 0,
            change: 2,
        }),
    ),
    (
        "1 1 2 put a x",
        "1 1 2 set a x",
        Err(Lie::Unasked {
            index: 0,
            change: 1,
        }),
    ),
    (
        "1 absent @0",
        "1 absent @2",
        Err(Lie::Wrong { lane: 1, line: 1 }),
    ),
    (
        "4 found y @2",
        "4 found x @2",
        Err(Lie::Wrong { lane: 1, line: 4 }),
    ),
    (
        "5 ok @3",
        "5 absent @3",
        Err(Lie::Unasked {
            index: 0,
            change: 3,
        }),
    ),
    (
        "1 absent @0",
        "1 space-full",
        Err(Lie::Wrong { lane: 1, line: 1 }),
    ),
];

#[test]
fn a_report_of_sets_is_legal_and_with_a_lie_it_is_not(rt: HostRuntime) {
    assert!(rt; SETS.is_judged(&rt, &EDITS));
}

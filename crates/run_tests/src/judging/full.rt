//! Reports of a list that is full, and of pages that ran out.
use crate::judging::cases::{Written, assert_judged};
use report_judge::{LIMITS, Lie, Limits};

const SCHEMA: &str = "index t 1\n";

const LANE: &str = "put t a x\nput t b y\nput t c z\ndel t a\nput t a w\ndel t d\nget t a\n";

/// What the lane is told where an index may have two changes.
const REPORT: &str =
    "ahi run\nlane 1\n1 ok @1 cold no\n2 ok @2 cold no\n3 log-full 2 cold no\n4 log-full 2 cold no\n5 duplicate @2 cold no\n6 absent @2 cold no\n7 found x @2 cold no\nchanges t 2\n1 1 1 put a x\n2 1 2 put b y\nstats t hit 0 off 0 cold 7 short 0 part-busy 0 no-entry 0 block-busy 0 clock 0 unequal 0 by-clock 0 by-busy 0 by-moved 0 by-last 0 built 0 same 0 arena 0 raced 0 worn 0\nend\n";

const MANY: u64 = LIMITS.pages;

/// The report where an index may have two changes, three, and many; and where there are seven pages,
/// and eight.
static FULL: [Written; 5] = [
    Written {
        schema: SCHEMA,
        lanes: &[LANE],
        report: REPORT,
        limits: Limits {
            changes: 2,
            pages: MANY,
        },
        cases: &[
            ("a list that is full", &[], Ok(())),
            (
                "a full list of three",
                &[("3 log-full 2", "3 log-full 3")],
                Err(Lie::Wrong { lane: 1, line: 3 }),
            ),
            (
                "absent in place of full",
                &[("3 log-full 2", "3 absent @2")],
                Err(Lie::Wrong { lane: 1, line: 3 }),
            ),
            (
                "a del that finds no row",
                &[("4 log-full 2", "4 absent @2")],
                Err(Lie::Wrong { lane: 1, line: 4 }),
            ),
            (
                "a duplicate that meets a full list",
                &[("5 duplicate @2", "5 log-full 2")],
                Err(Lie::Wrong { lane: 1, line: 5 }),
            ),
            (
                "an absent row that meets a full list",
                &[("6 absent @2", "6 log-full 2")],
                Err(Lie::Wrong { lane: 1, line: 6 }),
            ),
            (
                "a get that meets a full list",
                &[("7 found x @2", "7 log-full 2")],
                Err(Lie::Wrong { lane: 1, line: 7 }),
            ),
            (
                "a list that is full too early",
                &[("3 log-full 2", "3 log-full 1")],
                Err(Lie::Back { lane: 1, line: 3 }),
            ),
        ],
    },
    Written {
        schema: SCHEMA,
        lanes: &[LANE],
        report: REPORT,
        limits: Limits {
            changes: 3,
            pages: MANY,
        },
        cases: &[(
            "a list of three that has room",
            &[],
            Err(Lie::Wrong { lane: 1, line: 3 }),
        )],
    },
    Written {
        schema: SCHEMA,
        lanes: &[LANE],
        report: REPORT,
        limits: Limits {
            changes: LIMITS.changes,
            pages: MANY,
        },
        cases: &[(
            "a list of many that has room",
            &[],
            Err(Lie::Wrong { lane: 1, line: 3 }),
        )],
    },
    // two rows of one index by one lane take seven pages at most
    Written {
        schema: SCHEMA,
        lanes: &[LANE],
        report: REPORT,
        limits: Limits {
            changes: 2,
            pages: 7,
        },
        cases: &[
            (
                "pages that ran out",
                &[("3 log-full 2", "3 space-full")],
                Ok(()),
            ),
            (
                "a del that needs a page",
                &[("4 log-full 2", "4 space-full")],
                Err(Lie::Wrong { lane: 1, line: 4 }),
            ),
            (
                "a get that needs a page",
                &[("7 found x @2", "7 space-full")],
                Err(Lie::Wrong { lane: 1, line: 7 }),
            ),
        ],
    },
    Written {
        schema: SCHEMA,
        lanes: &[LANE],
        report: REPORT,
        limits: Limits {
            changes: 2,
            pages: 8,
        },
        cases: &[(
            "a page that is left",
            &[("3 log-full 2", "3 space-full")],
            Err(Lie::Wrong { lane: 1, line: 3 }),
        )],
    },
];

#[test]
fn what_is_full_refuses_what_its_map_allows(rt: HostRuntime) {
    assert_judged(&rt, &FULL);
}

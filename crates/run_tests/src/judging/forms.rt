//! Texts that aren't reports.
use crate::judging::by_hand::{LANES, REPORT, SCHEMA};
use crate::judging::cases::{Written, assert_judged};
use report_judge::{LIMITS, Lie, judge};

/// The report of two lanes with a line that isn't in its form, and which line that is.
static FORMS: [Written; 1] = [Written {
    schema: SCHEMA,
    lanes: &LANES,
    report: REPORT,
    limits: LIMITS,
    cases: &[
        (
            "a number of two digits, the first a 0",
            &[("2 ok @1", "02 ok @1")],
            Err(Lie::Form { line: 3 }),
        ),
        (
            "a point of two digits, the first a 0",
            &[("2 ok @1", "2 ok @01")],
            Err(Lie::Form { line: 3 }),
        ),
        (
            "two spaces",
            &[("2 ok @1", "2  ok @1")],
            Err(Lie::Form { line: 3 }),
        ),
        (
            "a put in a full space at a point",
            &[("2 ok @1", "2 space-full @1")],
            Err(Lie::Form { line: 3 }),
        ),
        (
            "a hit, and why it made no entry",
            &[("2 ok @1 cold no", "2 ok @1 hit no")],
            Err(Lie::Form { line: 3 }),
        ),
        (
            "an answer without a descent, and an entry that was built",
            &[("2 ok @1 cold no", "2 ok @1 - built")],
            Err(Lie::Form { line: 3 }),
        ),
        (
            "two dashes",
            &[("2 ok @1 cold no", "2 ok @1 - -")],
            Err(Lie::Form { line: 3 }),
        ),
        (
            "a descent that was off, and a dash",
            &[("2 ok @1 cold no", "2 ok @1 off -")],
            Err(Lie::Form { line: 3 }),
        ),
        (
            "a descent by the clock, and a dash",
            &[("2 ok @1 cold no", "2 ok @1 by-clock -")],
            Err(Lie::Form { line: 3 }),
        ),
        (
            "a hit that isn't counted",
            &[("2 ok @1 cold no", "2 ok @1 hit -")],
            Err(Lie::Form { line: 24 }),
        ),
        (
            "a hit that is counted of another index",
            &[
                ("2 ok @1 cold no", "2 ok @1 hit -"),
                ("stats u hit 0", "stats u hit 1"),
            ],
            Err(Lie::Form { line: 24 }),
        ),
        (
            "a line's number that isn't the next one",
            &[("3 found", "4 found")],
            Err(Lie::Form { line: 4 }),
        ),
        (
            "a lane's number that isn't the next one",
            &[("lane 2", "lane 3")],
            Err(Lie::Form { line: 9 }),
        ),
        (
            "fewer changes than are listed",
            &[("changes t 4", "changes t 3")],
            Err(Lie::Form { line: 20 }),
        ),
        (
            "more changes than are listed",
            &[("changes t 4", "changes t 5")],
            Err(Lie::Form { line: 21 }),
        ),
        (
            "a change's number that isn't the next one",
            &[("3 2 3 put b w", "4 2 3 put b w")],
            Err(Lie::Form { line: 19 }),
        ),
        (
            "a count of words that nobody told",
            &[("hit 0", "hit 1")],
            Err(Lie::Form { line: 24 }),
        ),
        (
            "another index",
            &[("stats u", "stats t")],
            Err(Lie::Form { line: 25 }),
        ),
        (
            "an end without its newline",
            &[("end\n", "end")],
            Err(Lie::Form { line: 26 }),
        ),
        (
            "a second end",
            &[("end\n", "end\nend\n")],
            Err(Lie::Form { line: 26 }),
        ),
    ],
}];

#[test]
fn a_report_has_its_form(rt: HostRuntime) {
    assert_judged(&rt, &FORMS);
}

#[test]
fn a_report_is_text(rt: HostRuntime) {
    let judged = judge(rt.alloc(), SCHEMA, &[""], b"ahi run\xff\n");
    assert!(rt; judged == Err(Lie::Form { line: 0 }));
}

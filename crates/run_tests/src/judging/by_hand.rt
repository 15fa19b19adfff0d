//! A report of two lanes, written by hand.
use crate::judging::cases::{Case, Edits, Written, assert_judged};
use report_judge::LIMITS;

pub(super) const SCHEMA: &str = "# two indexes\nindex t 1\nindex u 2\n";

pub(super) const LANES: [&str; 2] = [
    "# says nothing\nput t a x\nget t a\n\ndel t a\nput t a y\nget t b\nput u a,b x\n",
    "put t a z\ndel t a\nput t b w\nget t a\nget u a,b\ndel u a,b",
];

/// The report of the lanes where their lines are worked in turns.
pub(super) const REPORT: &str =
    "ahi run\nlane 1\n2 ok @1 cold no\n3 found x @1 cold no\n5 absent @2 cold no\n6 ok @4 cold no\n7 found w @4 cold no\n8 ok @1 cold no\nlane 2\n1 duplicate @1 cold no\n2 ok @2 cold no\n3 ok @3 cold no\n4 found y @4 cold no\n5 found x @1 cold no\n6 ok @2 cold no\nchanges t 4\n1 1 2 put a x\n2 2 2 del a\n3 2 3 put b w\n4 1 6 put a y\nchanges u 2\n1 1 8 put a,b x\n2 2 6 del a,b\nstats t hit 0 off 0 cold 9 short 0 part-busy 0 no-entry 0 block-busy 0 clock 0 unequal 0 by-clock 0 by-busy 0 by-moved 0 by-last 0 built 0 same 0 arena 0 raced 0 worn 0\nstats u hit 0 off 0 cold 3 short 0 part-busy 0 no-entry 0 block-busy 0 clock 0 unequal 0 by-clock 0 by-busy 0 by-moved 0 by-last 0 built 0 same 0 arena 0 raced 0 worn 0\nend\n";

/// Other columns of some answers, and the statistics that count them.
const COLUMNS: Edits = &[
    ("3 found x @1 cold no", "3 found x @1 no-entry built"),
    ("5 absent @2 cold no", "5 absent @2 hit -"),
    ("8 ok @1 cold no", "8 ok @1 hit raced"),
    ("4 found y @4 cold no", "4 found y @4 no-entry same"),
    ("stats t hit 0 off 0 cold 9", "stats t hit 1 off 0 cold 6"),
    ("no-entry 0", "no-entry 2"),
    ("built 0 same 0", "built 1 same 1"),
    ("stats u hit 0 off 0 cold 3", "stats u hit 1 off 0 cold 2"),
    ("raced 0 worn 0\nend", "raced 1 worn 0\nend"),
];

static LEGAL: [Written; 1] = [Written {
    schema: SCHEMA,
    lanes: &LANES,
    report: REPORT,
    limits: LIMITS,
    cases: &[
        ("a report of descents", &[], Ok(())),
        ("a report with other columns", COLUMNS, Ok(())),
    ],
}];

#[test]
fn a_run_of_two_lanes_is_legal(rt: HostRuntime) {
    assert_judged(&rt, &LEGAL);
}

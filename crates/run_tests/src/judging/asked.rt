//! Schemas and lanes that this reading can't read.
use crate::judging::by_hand::SCHEMA;
use crate::judging::cases::{Written, assert_judged};
use report_judge::{LIMITS, Lie};

/// Schemas and lanes that can't be read, and the file and the line of what isn't plain.
static ASKED: [Written; 7] = [
    Written {
        schema: "index t 1\n\nindex u\n",
        lanes: &[""],
        report: "",
        limits: LIMITS,
        cases: &[(
            "an index without a number of fields",
            &[],
            Err(Lie::Asked { file: 0, line: 3 }),
        )],
    },
    Written {
        schema: SCHEMA,
        lanes: &["# a\nget t %61\n"],
        report: "",
        limits: LIMITS,
        cases: &[("an escape", &[], Err(Lie::Asked { file: 1, line: 2 }))],
    },
    Written {
        schema: SCHEMA,
        lanes: &["get t a,b\n"],
        report: "",
        limits: LIMITS,
        cases: &[(
            "a key of too many fields",
            &[],
            Err(Lie::Asked { file: 1, line: 1 }),
        )],
    },
    Written {
        schema: SCHEMA,
        lanes: &["get u a\n"],
        report: "",
        limits: LIMITS,
        cases: &[(
            "a key of too few fields",
            &[],
            Err(Lie::Asked { file: 1, line: 1 }),
        )],
    },
    Written {
        schema: SCHEMA,
        lanes: &["get v a\n"],
        report: "",
        limits: LIMITS,
        cases: &[(
            "an index that isn't there",
            &[],
            Err(Lie::Asked { file: 1, line: 1 }),
        )],
    },
    Written {
        schema: SCHEMA,
        lanes: &["put t a a%20b\n"],
        report: "",
        limits: LIMITS,
        cases: &[(
            "a value with an escape",
            &[],
            Err(Lie::Asked { file: 1, line: 1 }),
        )],
    },
    Written {
        schema: SCHEMA,
        lanes: &["del t\n"],
        report: "",
        limits: LIMITS,
        cases: &[(
            "a del without a key",
            &[],
            Err(Lie::Asked { file: 1, line: 1 }),
        )],
    },
];

#[test]
fn what_is_asked_is_plain(rt: HostRuntime) {
    assert_judged(&rt, &ASKED);
}

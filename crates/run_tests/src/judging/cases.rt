//! Reports written by hand, and how they are judged where edits are made in them.
use crate::setup::MEMORY;
use report_judge::{Lie, Limits, judge_within};
use std::process::Abort;

/// Texts, and what is to stand in their place.
pub(super) type Edits = &'static [(&'static str, &'static str)];

/// What the edits of a report make of it, the edits, and how it is judged then.
pub(super) type Case = (&'static str, Edits, Result<(), Lie>);

/// A schema, lanes and a report of them, the limits that it is judged by, and what becomes of it.
pub(super) struct Written {
    pub(super) schema: &'static str,
    pub(super) lanes: &'static [&'static str],
    pub(super) report: &'static str,
    pub(super) limits: Limits,
    pub(super) cases: &'static [Case],
}

/// A text with an edit made, where its old text first stands.
fn with_edit<R: AllocGlobal + Abort>(rt: &R, text: &str, old: &str, new: &str) -> String {
    let (before, after) = text.split_once(old).expect(rt, "the old text");
    format!(in rt.alloc(); "{before}{new}{after}").expect(rt, MEMORY)
}

/// A report with edits made in it, one after the other.
fn edited<R: AllocGlobal + Abort>(rt: &R, report: &str, edits: Edits) -> String {
    let mut text = String::from_str(rt.alloc(), report).expect(rt, MEMORY);
    for (old, new) in edits {
        text = with_edit(rt, text.as_str(), old, new);
    }
    text
}

/// Whether a report is judged as its case has it.
fn is_judged<R: AllocGlobal + Abort>(rt: &R, written: &Written, case: &Case) -> bool {
    let report = edited(rt, written.report, case.1);
    judge_within(
        rt.alloc(),
        written.limits,
        written.schema,
        written.lanes,
        report.as_bytes(),
    ) == case.2
}

/// Asserts that each report is judged as its cases have it.
pub(super) fn assert_judged<R: AllocGlobal + Abort>(rt: &R, reports: &[Written]) {
    for written in reports {
        for case in written.cases {
            assert!(rt; is_judged(rt, written, case), "{}", case.0);
        }
    }
}

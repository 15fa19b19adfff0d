//! Reports of one lane, written by hand and edited, before the judge.
use crate::setup::MEMORY;
use report_judge::{BEFORE_COLD, BEHIND_COLD, Lie, judge};
use std::process::Abort;

/// A schema of the index `t` alone, a lane, and its report up to the statistics: so many answers,
/// all with the columns `cold no`.
#[derive(Clone, Copy)]
pub(crate) struct Written {
    pub(crate) schema: &'static str,
    pub(crate) lane: &'static str,
    pub(crate) report: &'static str,
    pub(crate) answers: u32,
}

/// A text of the report, what is put in place of it, and how the report is judged then.
pub(crate) type Edit = (&'static str, &'static str, Result<(), Lie>);

impl Written {
    /// The report with the new text where the old one first stands.
    fn edited<R: AllocGlobal + Abort>(&self, rt: &R, old: &str, new: &str) -> String {
        let (before, after) = self.report.split_once(old).expect(rt, "the old text");
        let mut edited = String::new(rt.alloc());
        write!(edited, "{before}{new}{after}").expect(rt, MEMORY);
        let answers = self.answers;
        write!(
            edited,
            "stats t {BEFORE_COLD} {answers} {BEHIND_COLD}\nend\n"
        )
        .expect(rt, MEMORY);
        edited
    }

    /// Each edited report is judged so.
    pub(crate) fn is_judged<R: AllocGlobal + Abort>(&self, rt: &R, edits: &[Edit]) -> bool {
        for (old, new, judgement) in edits {
            let report = self.edited(rt, old, new);
            if judge(rt.alloc(), self.schema, &[self.lane], report.as_bytes()) != *judgement {
                return false;
            }
        }
        true
    }
}

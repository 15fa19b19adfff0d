//! A naive reading of what a legal report is. It takes texts and knows nothing of the program: no
//! parser, no map and no printing of its crates. Keys and values have to be plain, without escapes.

use crate::asked::{read_lanes, read_schema};
use crate::told::Report;
use crate::words::Reader;
use std::alloc::Global;
use std::str;

/// How many changes an index may have, and how many pages there are for all of them.
#[derive(Clone, Copy)]
pub struct Limits {
    pub changes: u64,
    pub pages: u64,
}

/// The limits of a run whose schema names none.
pub const LIMITS: Limits = Limits {
    changes: 1_000_000,
    pages: 4096,
};

/// Why a report isn't legal. Lines, lanes and changes are counted from 1, indexes from 0.
#[derive(Clone, Copy, PartialEq)]
pub enum Lie {
    /// Memory lacked, and nothing is said of the report.
    NoMemory,
    /// The schema, which is file 0, or a lane has a line that this reading can't read.
    Asked { file: usize, line: u64 },
    /// The line of the report isn't one that may stand there.
    Form { line: u64 },
    /// A put of a key that is there, or a set or a del of a key that isn't.
    Unlawful { index: usize, change: u64 },
    /// The change isn't what its line asks, or that line isn't told `ok` at the change's number.
    Unasked { index: usize, change: u64 },
    /// The point is lower than an earlier one of the lane and index, or an `ok` doesn't raise it.
    Back { lane: usize, line: u64 },
    /// The answer isn't that of the map at its point, or it is `space-full` and may not be.
    Wrong { lane: usize, line: u64 },
}

/// Whether these bytes are a legal report of the lanes, numbered from 1 in their order, within the
/// limits of a run whose schema names none.
pub fn judge(alloc: Global, schema: &str, lanes: &[&str], report: &[u8]) -> Result<(), Lie> {
    judge_within(alloc, LIMITS, schema, lanes, report)
}

/// The same within these limits.
pub fn judge_within<'a>(
    alloc: Global,
    limits: Limits,
    schema: &str,
    lanes: &[&'a str],
    report: &'a [u8],
) -> Result<(), Lie> {
    let Ok(text) = str::from_utf8(report) else {
        return Err(Lie::Form { line: 0 });
    };
    let mut judged = Ok(());
    let indexes = read_schema(alloc, &mut judged, schema);
    let asked = read_lanes(alloc, &mut judged, &indexes, lanes);
    let mut report = Report::read(alloc, Reader::new(text, judged), &indexes, &asked);
    report.judge(limits, lanes.len())
}

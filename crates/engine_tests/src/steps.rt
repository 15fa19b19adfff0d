//! Tables of what a caller asks, one order after another, and of what each is told.
use crate::asked::Run;
use crate::setup::{counted_alone, smallest};
use std::process::Abort;
use std::sync::Wait;

/// One order of a table: the number of a row, how many rows from this one on are asked, what is asked
/// of each, and what that has to be told. The key of such a row has four bytes.
macro_rules! step {
    ($number:expr, $rows:expr, $order:expr, $wanted:expr $(,)?) => {
        crate::asked::Run {
            first: crate::asked::Asked {
                name: crate::asked::Name {
                    start: $number,
                    cut: None,
                    length: 4,
                },
                order: $order,
                wanted: $wanted,
            },
            step: 1,
            rows: $rows,
            times: $rows,
        }
    };
}

pub(crate) use step;

/// Each step is told what it has to be, by an engine of one index with so many pages and changes.
pub(crate) fn assert_told<R: AllocGlobal + Abort + Wait>(
    rt: &R,
    pages: u32,
    changes: u32,
    steps: &[Run],
) {
    counted_alone(rt, &smallest(pages, changes), 1, steps);
}

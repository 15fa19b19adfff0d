//! What the verdict on a report is, and its laws, each the contract of a function that does nothing.
//! Nothing here reads a report.
#![tactic(auto)]

mod laws;

pub use laws::{bytes_have_one_verdict, lines_are_lines, lines_are_spelled, lines_judge};

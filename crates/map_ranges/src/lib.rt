//! Seeks in an ordered map of the program by a range of its keys, in place of a walk over its rows.
//! Nothing here reads a report.
#![tactic(auto)]

mod bounds;
mod seeks;

pub use seeks::sought;

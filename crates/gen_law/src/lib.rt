//! What the generator makes, as functions of a number: the lines of each lane; and laws about it.
//! Nothing here runs.
#![tactic(auto)]

mod counts;
mod drawing;

pub use counts::rows_by_changes;
pub use drawing::{first_lines_are_drawn, lanes_have_their_own_keys};

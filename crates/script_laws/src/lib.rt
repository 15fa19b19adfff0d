//! Laws of the grammar of schemas and lanes: what follows from it for every file. Each is the
//! contract of a function that does nothing.
#![tactic(auto)]

mod grammar;
mod lanes;
mod samples;

pub use grammar::{fields_are_read_again, keys_are_read_again, refusals_are_first};
pub use lanes::{lines_are_told, lines_can_be_worked};
pub use samples::{five_fields_are_read, two_lines_are_read};

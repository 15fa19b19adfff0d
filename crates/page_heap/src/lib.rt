//! Records that are written into a page: behind all others, or where a freed one is.
//! It never links a record into the list, nor looks for a slot.
#![tactic(auto)]

mod writing;

pub use writing::{write_behind, write_over};

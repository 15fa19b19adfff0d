//! How lines are read: what a form of lines is, and that reading stops at the first line at which no
//! form can stand. Nothing here reads a line.
#![tactic(auto)]

mod laws;

pub use laws::reading_judges;

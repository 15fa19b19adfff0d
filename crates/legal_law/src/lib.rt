//! That bytes are a legal report exactly where all lines of the report that they spell keep all
//! points. Nothing here reads a report.
#![tactic(auto)]

mod laws;

pub use laws::legal_is_sound;

//! The key and the value of a row from plain bytes, for tests.
//! Nothing here knows of pages or of keys of more than one field.
#![tactic(auto)]

mod rows;

pub use rows::{key_of, value_of};

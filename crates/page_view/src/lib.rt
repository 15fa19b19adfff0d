//! The rows of a leaf, read: the row of a key is found, and rows from a place on are copied.
//! Nothing here changes a page, looks at another one or takes a latch.
#![tactic(auto)]

mod finding;
mod taking;

pub use finding::find_key;
pub use taking::{Stop, take_rows};

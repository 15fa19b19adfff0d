//! Scans: the rows of an index from FROM on, below TO, in pieces of one leaf each. Nothing here takes a
//! tree or changes a row.
#![tactic(auto)]

mod finding;
mod first_piece;
mod going_on;
mod later_piece;
mod scan_call;
mod scanning;

pub use scan_call::FirstLeaf;
pub use scanning::scan_rows;

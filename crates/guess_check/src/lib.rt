//! The check of a guess: whether a row that a hash found is the one that a search asks for.
//! Nothing here looks at another page, takes a latch or keeps anything.
#![tactic(auto)]

mod checking;
mod laws;

pub use checking::check;
pub use laws::checked_rows_pass;

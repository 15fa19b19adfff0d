//! How many rows an index has after its changes, with no map made.
#![tactic(auto)]

mod counting;

pub use counting::rows_after;

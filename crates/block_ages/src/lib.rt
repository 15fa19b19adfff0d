//! How long ago each block was used, and which block that was longest ago.
#![tactic(auto)]

mod ages;
mod lowest;

pub use ages::Ages;

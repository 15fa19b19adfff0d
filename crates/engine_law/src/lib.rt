//! What the calls of an engine have in common: how a leaf was found, what is said, and what is told of
//! it. Definitions and lemmas alone: nothing here runs.
#![tactic(auto)]

mod found;

pub use found::Found;

//! A row of a leaf in hand is read, put, set or taken out: committed and answered while the leaf is held.
//! Nothing here goes down a tree, makes room, or takes a tree.
#![tactic(auto)]

mod changing;
mod committing;
mod deleting;
mod getting;
mod holding;
mod lengthening;
mod putting;
mod saying;
mod setting;
mod tree_call;
mod upkeep;

pub use tree_call::TreeCall;

//! The slots of a page: which record each names, how many records that owns, and how this changes.
//! It never moves a record, nor changes the order of the list.
#![tactic(auto)]

mod balancing;
mod owners;
mod split;

pub use balancing::balance;
pub use owners::{find_owner, find_slot, owned};
pub use split::split_slot;

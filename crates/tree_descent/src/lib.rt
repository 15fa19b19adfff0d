//! Going down a tree: from its root to the leaf that has the position of a tuple, with no tree in
//! hand, and from a page to its child.
#![tactic(auto)]

mod child;
mod descending;
mod pages;
mod picking;
mod positions;
mod ways;

pub use child::child_for;
pub use descending::{Leaf, descend};

//! The way up after a row went: light pages are merged with a neighbour under the same parent, and
//! a root that is left with one child is lifted. No row is taken out here, and no page is ever
//! split.
#![tactic(auto)]

mod families;
mod hands;
mod hashing;
mod joining;
mod levels;
mod lifting;
mod merging;
mod pairs;
mod reading;
mod settling;
mod shrinking;
mod sinking;

pub use lifting::lift;
pub use merging::merge_children;
pub use shrinking::shrink;

/// The rows of two pages that become one take this much room at most.
pub const MERGED_LOAD: u16 = 12_189;

/// A page whose rows take less room than this is light.
pub const LIGHT_LOAD: u16 = 8_126;

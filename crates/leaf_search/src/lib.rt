//! The leaf of a key, found by the hash or by a way down the tree; and what that teaches the index
//! and the leaf's block, which is hashed where that is worth it.
#![tactic(auto)]

mod building;
mod down;
mod lesson;
mod searched;
mod searching;

pub use down::{key_spot, leaf_is_in_order};
pub use lesson::learn_leaf;
pub use searched::{KeySearch, Searched};
pub use searching::{how_of, note_of_hit, search_key};

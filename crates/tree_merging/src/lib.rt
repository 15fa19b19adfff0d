//! Merges and lifts as changes of frames in hand, as plain values: rows, pointers, bounds and
//! clocks. Nothing here takes a latch, looks at a space, or says when pages are merged.
#![tactic(auto)]

mod laws;
mod lift;
mod merge;
mod pair;
mod pointer;

pub use laws::{lifts_are_in_hand, merges_are_in_hand, siblings_fit};
pub use lift::lift_frames;
pub use merge::merge_frames;

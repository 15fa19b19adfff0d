//! Splits and raises as changes of frames in hand, as plain values: rows, pointers, bounds and clocks.
//! Nothing here takes a latch, looks at a space, or says when a page is split.
#![tactic(auto)]

mod clock;
mod cut;
mod keys;
mod laws;
mod pointer;
mod raise;
mod relink;
mod split;
mod walk;

pub use clock::rise;
pub use cut::{Cut, cut_frame, find_cut};
pub use laws::{raises_are_in_hand, splits_are_in_hand};
pub use pointer::put_pointer;
pub use raise::raise_frames;
pub use relink::relink_next;
pub use split::split_frames;

//! Splits and raises of pages in hand, each made known in one step.
#![tactic(auto)]

mod halves;
mod keeping;
mod numbers;
mod plans;
mod raising;
mod relinking;
mod settling;
mod splitting;
mod storeys;

pub use halves::{SplitBlocks, SplitHands, halves_back, halves_out};
pub use keeping::{keep_up_between, laws_of_moves};
pub use numbers::pages_are_numbered;
pub use plans::head_of;
pub use raising::raise_root;
pub use relinking::relink_behind;
pub use splitting::split_child;

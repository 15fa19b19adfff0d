//! A page's bytes as numbers, slots, and records under their heap numbers.
//! It never asks in which order the records stand, nor which of them a slot should name.
#![tactic(auto)]

mod empty;
mod heads;
mod numbers;
mod slots;
mod steps;

pub use empty::write_empty;
pub use numbers::{
    first_free, garbage, heap_count, heap_top, row_count, set_first_free, set_garbage,
    set_row_count, slot_count,
};
pub use slots::{close_slot, name_slot, open_slot, slot_owner};
pub use steps::{lead, next_of, own, owns};

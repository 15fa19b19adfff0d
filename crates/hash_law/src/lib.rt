//! The law of hashed leaves: which nodes a leaf has in its partition, and what a change of its rows
//! changes in them. Plain data and laws alone: nothing here runs, hashes or takes memory.
#![tactic(auto)]

mod blocks;
mod changes;
mod examples;
mod runs;
mod sums;

pub use blocks::{
    figures_are_owed_nothing, nodes_lead_to_rows, others_are_owed_nothing, shares_add_up,
};
pub use changes::{
    changes_are_few, deletes_change_few, inserts_change_few, rows_change_few, tails_join,
    tails_leave,
};
pub use examples::{mirrored_rows, worked_rows};
pub use runs::{nodes_follow_rows, nodes_name_rows, one_of_each_run, right_mirrors_left};
pub use sums::{
    blocks_add_up, blocks_change_alone, blocks_change_together, entries_are_own, room_is_exact,
};

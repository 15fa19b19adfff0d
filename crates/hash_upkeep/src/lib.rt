//! The upkeep of a hashed leaf: its entries are built, dropped, and kept up with its rows in a
//! partition. Plain values alone: nothing here waits, holds a latch or takes memory.
#![tactic(auto)]

mod building;
mod built;
mod change;
mod entering;
mod few;
mod hashing;
mod laws;
mod leaving;
mod moves;
mod rows;
mod upkeep;
mod walk;

pub use building::build;
pub use built::Build;
pub use entering::{count_entries, enter_all};
pub use hashing::Hashing;
pub use laws::{
    entries_are_owed, exact_nodes_are_covered, moves_are_covered, rows_come_and_go,
    written_rows_keep_entries,
};
pub use leaving::drop_block;
pub use moves::{Move, on_move};
pub use rows::{on_delete, on_insert};
pub use upkeep::Upkeep;

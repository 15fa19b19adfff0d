//! Hashed blocks: built, dropped and kept up with, on what a pass has in hand.
#![tactic(auto)]

mod building;
mod laws;
mod leaves;
mod moves;
mod moving;
mod parting;
mod upkeep;

pub use building::{build_frame, count_leaf};
pub use laws::{moves_keep_the_hash, upkeep_keeps_the_hash};
pub use leaves::{hashing_of, rehash, row_came, row_goes, unhash};
pub use moves::rows_moved;
pub use moving::move_between;
pub use parting::{give_part_back, hold_part, part_back, part_out, partition, try_part};
pub use upkeep::{delete_in_frame, drop_frame, insert_in_frame};

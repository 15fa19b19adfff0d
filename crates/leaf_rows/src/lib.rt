//! The rows of a leaf as a map: the row of a key is found, put in and taken out.
//! Nothing here looks at another page, takes a latch or keeps anything.
#![tactic(auto)]

mod changing;
mod laws;
mod setting;

pub use changing::{delete_row, put_row, take_back};
pub use laws::{refusals_are_full, refused_values_lack_room, rows_are_taken_out, values_are_set};
pub use setting::{GrownRow, LeafBefore, grow_value, put_back, rewrite_row, value_len};

//! Rows in a page's bytes: where the page has room for one, how it comes in, and how it goes.
//! It never compares keys.
#![tactic(auto)]

mod appending;
mod deleting;
mod inserting;
mod room;
mod setting;
mod taking;

pub use appending::append_row;
pub use deleting::{delete_row, gaps_without};
pub use inserting::insert_row;
pub use room::{page_gaps, page_load, page_rest};
pub use setting::set_value;

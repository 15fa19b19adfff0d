//! The law of modify clocks: when a frame is a later one of what it was, and what an equal clock says.
//! Plain data and laws alone: nothing here runs, holds a page or takes memory.
#![tactic(auto)]

mod later;

pub use later::{changes_are_later, equal_clocks_keep_places, later_is_an_order, lost_rows_raise};

//! The list of a page's records: a record comes into it, and goes.
//! It never writes a record, nor takes one from the free list.
#![tactic(auto)]

mod entering;
mod leaving;

pub use entering::enter_list;
pub use leaving::{leave_list, loses_slot};

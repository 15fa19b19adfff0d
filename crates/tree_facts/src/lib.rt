//! What a lawful state of the trees tells about the pages in frames, for descents and splits.
//! Laws alone: nothing here runs, takes a latch or holds a page.
#![tactic(auto)]

mod inner;
mod leaves;
mod levels;

pub use inner::{
    children_have_cuts, cuts_are_in_ranges, inner_pages_point, pointers_bound_children,
    ranges_have_cuts,
};
pub use leaves::{leaves_lead_walks, leaves_tell_maps};
pub use levels::{levels_are_few, next_pages_fit, previous_pages_fit};

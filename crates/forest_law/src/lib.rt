//! The law of indexes that are trees of pages in one pool: the objects of their space, which states
//! are lawful, and which steps may be made. Nothing here searches, and nothing waits.
#![tactic(auto)]

mod hash;
mod law;
mod layout;
mod objects;
mod opening;
mod pages;
mod steps;

pub use hash::{blocks_ask_the_same, hash_is_kept, hashes_are_exact, nodes_lead_to_frames};
pub use law::{
    answers_stay_right, forests_open_lawfully, full_pools_are_short, outside_is_held,
    references_last, releases_stay_lawful, steps_stay_lawful, takes_stay_lawful,
};
pub use layout::ForestLayout;
pub use objects::{Frame, Object, Pool, Stored, Tree, Where};
pub use opening::first_forest;
pub use pages::{
    cuts_have_pages, frames_have_one_page, frames_tell_pages, images_tell_pages, roots_have_cuts,
};
pub use steps::{one_put_is_lawful, pages_come_and_go, restructures_follow, row_changes_follow};

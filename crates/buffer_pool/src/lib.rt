//! The frames, the trees and the pool of a space of trees, taken, changed and given back, and pages
//! by their numbers. No caller names an object's number, and nothing here searches a tree.
#![tactic(auto)]

mod ages;
mod error;
mod frames;
mod free_numbers;
mod full;
mod hands;
mod looking;
mod new_pages;
mod numbers;
mod paging;
mod parts;
mod placing;
mod pools;
mod trees;
mod turning;
mod victims;

pub use error::PoolError;
pub use frames::{give_back, take_frame, try_frame};
pub use hands::{frame, frame_back, frame_out};
pub use new_pages::{free_page, new_page};
pub use paging::{page_if, page_in, try_page};
pub use parts::{give_part_if, hold_part_for};
pub use pools::{give_pool_back, pool, pool_back, pool_out, take_pool};
pub use trees::{change_tree, give_tree_back, take_tree, tree};

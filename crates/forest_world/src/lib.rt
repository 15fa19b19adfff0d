//! The world of the trees: the latched space of the pool, the trees and the frames, under the law
//! of `forest_law`, and what a pass has in hand of it. Nothing here searches, and nothing waits.
#![tactic(auto)]

mod hands;
mod opening;
mod telling;
mod world;

pub use forest_law::{
    ForestLayout, Frame, Object, Pool, Stored, Tree, Where, first_forest, forests_open_lawfully,
};
pub use hands::{hands_change_the_pool, hands_keep_the_hash, hands_make_steps, known_is_at_rest};
pub use opening::open_forest;
pub use telling::{fits, shape};
pub use world::{ForestPass, ForestSpace, ForestWorld};

//! The settings of a run: the words that a schema sets them by, the sizes that hold them, and
//! their limits. Nothing here reads a file or opens an engine.
#![tactic(auto)]

mod limits;
mod setting;
mod sized;

pub use limits::broken_setting;
pub use setting::{Setting, find_setting};
pub use sized::{set_size, size};

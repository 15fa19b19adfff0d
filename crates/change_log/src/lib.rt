//! Changes as the lanes note them, each with its line, and their merge by number.
//! Nothing here knows of pages or threads.
#![tactic(auto)]

mod change;
mod lane_log;
mod merging;

pub use change::LaneChange;
pub use lane_log::LaneLog;
pub use merging::merge;

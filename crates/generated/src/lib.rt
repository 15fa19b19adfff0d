//! The lines of a lane, drawn from a number.
//! It knows nothing of threads, files or other lanes.
#![tactic(auto)]

mod drawing;
mod lane;

pub use lane::generate_lane;

//! The lines of all lanes of a generated run.
//! It knows nothing of threads, files or an engine.
#![tactic(auto)]

mod lanes;

pub use lanes::generate_lanes;

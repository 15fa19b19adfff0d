//! What `gen` prints, put to a sink line by line.
//! Nothing here makes a line, runs a lane or counts a reply.
#![tactic(auto)]

mod lanes;
mod printing;

pub use printing::{Generated, put_generated};

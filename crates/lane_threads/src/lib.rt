//! Lanes of lines, each worked in a thread of its own, over one engine.
//! Nothing here opens files or prints.
#![tactic(auto)]

mod apart;
mod dealing;
mod doer;
mod doing;
mod gathering;
mod lane;
mod laws;
mod line;
mod readying;
mod together;

pub use index_engine::{EngineError, EnginePass};
pub use laws::runs_are_legal;
pub use together::{LanesWork, work_lanes};

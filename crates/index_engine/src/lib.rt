//! Operations on shared indexes, each answered once.
//! Nothing here keeps a list of its own: an answer is right by the law of the trees.
#![tactic(auto)]

mod calls;
mod closing;
mod deleting;
mod dividing;
mod engine;
mod error;
mod finding;
mod growing;
mod opening;
mod scanning;
mod write;
mod writing;

pub use engine::{Engine, EnginePass};
pub use error::EngineError;

//! Lanes of work in threads of their own: each doer works once, and all come back in order.
//! Nothing is said of which of them work at the same time.
#![tactic(auto)]

mod doer;
mod gate;
mod run;

pub use doer::Doer;
pub use gate::{Gate, NoGate};
pub use run::run_lanes;

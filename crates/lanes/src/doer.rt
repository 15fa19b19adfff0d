//! Work for one lane.
use crate::Gate;
use std::sync::Wait;
use std::thread::Threads;

/// A piece of work that may go to a thread of its own.
pub trait Doer: Send {
    /// How a doer is related to what it was before it worked once.
    ghost worked: { Self → Self → Type 0 };

    /// Works once, and asks the gate before each of its lines.
    fn work<R: Threads + Sync, W: Wait + Sync, G: Gate>(&mut self, rt: &R, wait: &W, gate: &G)
        ensures { worked self.old self.new };
}

//! The guess: from a tuple to a node of its fold, from that to the frame with the row that it names,
//! each by one try, and the check of that row. Nothing here waits, takes memory or changes an object.
#![tactic(auto)]

mod cause;
mod confirming;
mod following;
mod guessing;
mod laws;
mod leading;
mod outcome;

pub use cause::Cause;
pub use guessing::guess;
pub use laws::hits_reach;
pub use outcome::Guess;

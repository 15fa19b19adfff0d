//! What a legal report tells of lanes that were drawn from a number: laws, and no code.
#![tactic(auto)]

mod laws;

pub use laws::{four_add_up, replies_add_up};

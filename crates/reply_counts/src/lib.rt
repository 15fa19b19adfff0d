//! How many answers of a lane have each reply.
//! Nothing here prints, runs a lane or knows a page.
#![tactic(auto)]

mod counting;
mod laws;

pub use counting::ReplyCounts;
pub use laws::{counts_follow_answers, replies_are_all};

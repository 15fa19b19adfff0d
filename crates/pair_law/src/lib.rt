//! The law of the pair: two numbers that add up to the length of one list.
//! It runs no code: contracts and proofs alone read it.
#![tactic(auto)]

mod said;

pub use said::{One, Total};

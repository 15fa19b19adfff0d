//! The words of a call, split by `clap` into a command and its arguments.
//! It judges no word: its caller has accepted them, and only want of memory is refused.
#![tactic(auto)]

mod command;
mod splitting;

pub use splitting::{SplitWords, split};

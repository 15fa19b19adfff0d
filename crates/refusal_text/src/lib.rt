//! What a run that wasn't done tells its user in words, beside its line and its status.
//! It never puts anything.
#![tactic(auto)]

mod flaw;
mod lines;
mod reasons;
mod sizes;
mod told;
mod usage;

pub use reasons::{explain, refused_file};

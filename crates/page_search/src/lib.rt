//! Searches in a page's bytes: which row is the last that a cut leaves out.
//! It never copies a key, nor writes to a page.
#![tactic(auto)]

mod agreement;
mod comparing;
mod cut;
mod judging;
mod slots;
mod walk;
mod words;

pub use cut::CutPlace;
pub use walk::find_cut;

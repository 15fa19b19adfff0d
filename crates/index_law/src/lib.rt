//! What is asked of some indexes and said of them: their shape, their lists of changes, the answers that
//! are right at a point of a list, and what callers hand in. Nothing here knows a page or a latch.
#![tactic(auto)]

mod deed;
mod marker;

pub use deed::{ChangeRef, Deed, Say};
pub use marker::{AsMadeChange, AsSaying};

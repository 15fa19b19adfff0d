//! Counts of the words in the columns of answers: of one answer, of lanes, of all lanes together.
//! Nothing here prints, runs a lane or knows a page.
#![tactic(auto)]

mod counting;
mod laws;
mod places;
mod sums;

pub use counting::{count_told, no_counts};
pub use laws::counts_add_up;
pub use sums::add_up;

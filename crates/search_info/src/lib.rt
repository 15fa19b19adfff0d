//! The learner: for each index one word, in which all threads keep what the index has learnt. A
//! call loads the word once, tries to change it at most once, and neither waits nor takes memory.
#![tactic(auto)]

mod calls;
mod knows;
mod law;
mod learner;
mod opens;
mod outcome;
mod parts;
mod pass;
mod plays;
mod steps;

pub use knows::{Entry, Fate, Knows, Opening, Try};
pub use law::{Law, Settings};
pub use learner::Learner;
pub use learning::{BlockFigures, Descent, Event, Figures, Info};
pub use outcome::Learn;
pub use pass::LearnPass;

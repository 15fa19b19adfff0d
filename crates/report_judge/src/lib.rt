//! A naive judge of reports, for tests. It knows nothing of the program: no parser, no map and no
//! printing of its crates.
#![tactic(auto)]

mod acts;
mod answers;
mod asked;
mod changes;
mod columns;
mod drawn;
mod history;
mod judging;
mod keys;
mod told;
mod verdict;
mod words;

pub use acts::{Act, Reach};
pub use asked::{Index, Line, read_lanes, read_schema};
pub use columns::{BEFORE_COLD, BEHIND_COLD, COUNTED};
pub use drawn::draw;
pub use judging::{LIMITS, Lie, Limits, judge, judge_within};

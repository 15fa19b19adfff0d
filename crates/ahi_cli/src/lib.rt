//! The top call: words and files in, a report out, and the theorem that it is legal.
#![tactic(auto)]

mod files;
mod law;
mod run;
mod script_run;
mod status;
mod stop;
mod words;

pub use lane_threads::EnginePass;
pub use law::{ample_runs_find_pages, good_runs_are_done, runs_end_by_first_refusal};
pub use run::run_words;
pub use status::Status;

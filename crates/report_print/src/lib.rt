//! A report of any number of lanes over some indexes, put to a sink line by line.
//! Nothing here merges logs, runs a lane or knows a file.
#![tactic(auto)]

mod halt;
mod indexes;
mod lanes;
mod laws;
mod line;
mod report;
mod statistics;

pub use halt::Halt;
pub use laws::reports_are_spelled;
pub use line::put_line;
pub use report::put_report;

//! The lines of a report, appended to a buffer byte by byte.
//! A call appends its whole line, or nothing where there is no memory.
#![tactic(auto)]

mod answers;
mod changes;
mod field;
mod heads;
mod line;
mod scans;
mod statistics;
mod texts;
mod word;

pub use answers::answer;
pub use changes::change;
pub use heads::{changes_head, lane_head, report_end, report_head};
pub use line::put_line;
pub use scans::{piece_head, scan_answer, scan_head, scan_row};
pub use statistics::stats;
pub use texts::Texts;
pub use word::Word;

//! A report, read line by line from its bytes, or the number of the first line at which none can
//! stand. Nothing here judges what a report says.
#![tactic(auto)]

mod answer_line;
mod columns;
mod count_line;
mod counts;
mod digits;
mod entries;
mod entry_line;
mod kind;
mod lanes;
mod laws;
mod misread;
mod pieces;
mod report;
mod row_line;
mod rows;
mod scan_line;
mod stats;
mod text;
mod told;

pub use answer_line::{ReadAnswer, ReadReply};
pub use columns::ReadColumns;
pub use entry_line::ReadEntry;
pub use laws::read_runs_are_asked;
pub use misread::Misread;
pub use pieces::ReadPiece;
pub use report::{ReadReport, ReportError, read_report};
pub use text::ReportText;
pub use told::{ReadLine, ReadTold};

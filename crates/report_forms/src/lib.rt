//! How the lines of a report are read, and that reading stops at the first line at which no report
//! can stand. Nothing here reads a report.
#![tactic(auto)]

mod laws;

pub use laws::{
    answers_are_read, entries_are_read, reports_are_judged, reports_are_read, scans_are_read,
};

//! Why what some lanes are told of one space is a legal report.
//! Laws alone: nothing here runs, waits or takes memory.
#![tactic(auto)]

mod laws;

pub use laws::{
    example_stands, lanes_are_legal, lanes_go_on, lanes_teach, merged_logs_are_entries,
    merged_logs_are_lists, passes_are_trails, runs_join, trails_are_whole, tries_are_columns,
    worked_example,
};

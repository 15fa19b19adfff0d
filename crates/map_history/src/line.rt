//! A line of a lane.
use crate::Op;

/// A line that says something: its number, from 1, and its operation.
pub struct Line {
    pub line: u32,
    pub op: Op,
}

// Written out, so that a crate above drops it by one call.
impl Drop for Line {
    fn drop(self) {
        let Self { line: _, op: _ } = self;
    }
}

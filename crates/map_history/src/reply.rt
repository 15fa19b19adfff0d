//! What an operation is told.
use crate::columns::{How, Note};

/// The word of an answer. A found row stands in the caller's buffer.
#[derive(Clone, Copy, PartialEq, Eq)]
pub enum Reply {
    /// The row is there.
    Found,
    /// The row isn't there.
    Absent,
    /// The change was made.
    Ok,
    /// The key of a put is there already.
    Duplicate,
    /// No page is left for a split.
    SpaceFull,
    /// The list of changes is full: its length.
    LogFull(u64),
}

/// An answer with its columns.
#[derive(Clone, Copy, PartialEq, Eq)]
pub struct Told {
    pub reply: Reply,
    /// The number of changes of the index at which it was answered; none where space was full.
    pub point: Option<u64>,
    pub how: How,
    pub note: Note,
}

/// One piece of a scan, with its columns.
#[derive(Clone, Copy)]
pub struct Piece {
    /// The number of changes of the index at which its rows were read.
    pub point: u64,
    /// How many rows it has.
    pub count: u32,
    pub how: How,
    pub note: Note,
}

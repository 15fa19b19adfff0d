//! What callers hand to the space: a change to be made, and what is to be said at a point.
use crate::marker::{AsMadeChange, AsSaying};
use key_tuple::{Key, Value};
use latch_law::Means;
use map_history::{How, Note, OpRef, Reply, RowBuf};

/// A change of the map of an index, borrowed.
#[derive(Clone, Copy)]
pub enum ChangeRef<'a> {
    /// A row whose key isn't there.
    Put { key: &'a Key, value: &'a Value },
    /// A new value of a row that is there.
    Set { key: &'a Key, value: &'a Value },
    /// A row that is there, taken out.
    Del { key: &'a Key },
}

/// A change with its columns, borrowed. It stands for an entry of a list.
#[derive(Clone, Copy)]
pub struct Deed<'a> {
    /// What is changed.
    pub change: ChangeRef<'a>,
    /// The first column of its answer.
    pub how: How,
    /// The second column.
    pub note: Note,
}

impl Means<AsMadeChange> for Deed<'_> {
    ghost use Rattle.index_law.specs.Meanings.{change_by};

    ghost meaning = { change_by };
}

/// What is said at a point, borrowed. It takes no memory.
#[derive(Clone, Copy)]
pub enum Say<'a> {
    /// The reply to an operation, with the row that was found. Where `bound` names a point, it says
    /// nothing at any other.
    Reply {
        op: OpRef<'a>,
        reply: Reply,
        row: Option<&'a RowBuf>,
        bound: Option<u64>,
        how: How,
        note: Note,
    },
    /// Nothing.
    Look,
}

impl Means<AsSaying> for Say<'_> {
    ghost use Rattle.index_law.specs.Meanings.{saying_by};

    ghost meaning = { saying_by };
}

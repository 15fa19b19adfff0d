//! Operations on an index.
ghost use Rattle.std.specs.Prelude.{◌≡◌};
ghost use Rattle.map_history.specs.Operation.{operation_of, operation_by};

use key_tuple::{Key, Mode, Tuple, Value};

/// One operation on an index, by its number.
#[derive(Drop)]
pub enum Op {
    /// The value of a key.
    Get {
        index: u32,
        key: Key,
    },
    /// A new row.
    Put {
        index: u32,
        key: Key,
        value: Value,
    },
    /// A new value of a row that is there.
    Set {
        index: u32,
        key: Key,
        value: Value,
    },
    /// Takes a row out.
    Del {
        index: u32,
        key: Key,
    },
    /// The row that the mode asks for.
    Seek {
        index: u32,
        mode: Mode,
        tuple: Tuple,
    },
    /// The rows that aren't below `from` and are below `to`, ascending, at most `limit`.
    Scan {
        index: u32,
        from: Tuple,
        to: Option<Tuple>,
        limit: u32,
    },
}

/// An operation whose keys, values and tuples are borrowed.
#[derive(Clone, Copy)]
pub enum OpRef<'a> {
    Get {
        index: u32,
        key: &'a Key,
    },
    Put {
        index: u32,
        key: &'a Key,
        value: &'a Value,
    },
    Set {
        index: u32,
        key: &'a Key,
        value: &'a Value,
    },
    Del {
        index: u32,
        key: &'a Key,
    },
    Seek {
        index: u32,
        mode: Mode,
        tuple: &'a Tuple,
    },
    Scan {
        index: u32,
        from: &'a Tuple,
        to: Option<&'a Tuple>,
        limit: u32,
    },
}

impl Op {
    /// The number of the index.
    pub fn index(&self) -> u32
        ensures { result ≡ (operation_of self.now).index }
    {
        match self {
            Op::Get { index, .. }
            | Op::Put { index, .. }
            | Op::Set { index, .. }
            | Op::Del { index, .. }
            | Op::Seek { index, .. }
            | Op::Scan { index, .. } => *index,
        }
    }

    /// The same operation, borrowed.
    pub fn borrow(&self) -> OpRef<'_>
        ensures { operation_by result ≡ operation_of self.now }
    {
        match self {
            Op::Get { index, key } => OpRef::Get { index: *index, key },
            Op::Put { index, key, value } => OpRef::Put {
                index: *index,
                key,
                value,
            },
            Op::Set { index, key, value } => OpRef::Set {
                index: *index,
                key,
                value,
            },
            Op::Del { index, key } => OpRef::Del { index: *index, key },
            Op::Seek { index, mode, tuple } => OpRef::Seek {
                index: *index,
                mode: *mode,
                tuple,
            },
            Op::Scan {
                index,
                from,
                to,
                limit,
            } => OpRef::Scan {
                index: *index,
                from,
                to: to.as_ref(),
                limit: *limit,
            },
        }
    }
}

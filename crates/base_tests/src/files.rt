//! How files end that are read.
use crate::setup::has_fields;
use key_tuple::Mode;
use map_history::Op;
use script::{Flaw, Line, MAX_FILE_BYTES, ScriptError, read_lane, read_schema};
use std::process::Abort;

/// Two indexes.
pub(crate) const SCHEMA: &[u8] = b"# two indexes\n\nindex t 1\nindex two 2\n";

/// A file is read, or its first line has one of three flaws.
pub(crate) const READ: Option<ScriptError> = None;

pub(crate) const BAD: Option<ScriptError> = Some(ScriptError::Flawed {
    line: 1,
    flaw: Flaw::BadLine,
});

pub(crate) const UNKNOWN: Option<ScriptError> = Some(ScriptError::Flawed {
    line: 1,
    flaw: Flaw::UnknownIndex,
});

pub(crate) const LONG: Option<ScriptError> = Some(ScriptError::Flawed {
    line: 1,
    flaw: Flaw::TooLong,
});

/// The lines of a lane over this schema, or why it isn't read.
fn read<R: AllocGlobal + Abort>(
    rt: &R,
    schema: &[u8],
    lane: &[u8],
) -> Result<Vec<Line>, ScriptError> {
    assert!(rt; schema.len() <= MAX_FILE_BYTES && lane.len() <= MAX_FILE_BYTES);
    let schema = read_schema(rt.alloc(), schema).expect(rt, "a schema");
    read_lane(rt.alloc(), lane, &schema)
}

/// Why the file, a lane over those two indexes or a schema, isn't read.
pub(crate) fn error_of<R: AllocGlobal + Abort>(
    rt: &R,
    is_lane: bool,
    file: &[u8],
) -> Option<ScriptError> {
    assert!(rt; file.len() <= MAX_FILE_BYTES);
    if is_lane {
        read(rt, SCHEMA, file).err()
    } else {
        read_schema(rt.alloc(), file).err()
    }
}

/// The lines of a lane over this schema.
pub(crate) fn lines_of<R: AllocGlobal + Abort>(rt: &R, schema: &[u8], lane: &[u8]) -> Vec<Line> {
    read(rt, schema, lane).expect(rt, "a lane")
}

/// A lane over those two indexes that has one line, the line's number, the mode of a seek, the
/// fields, and the value of a set.
pub(crate) type Asking = (
    &'static [u8],
    u32,
    Option<Mode>,
    &'static [&'static [u8]],
    &'static [u8],
);

/// The lane's line asks that of the second index.
pub(crate) fn asks<R: AllocGlobal + Abort>(rt: &R, row: &Asking) -> bool {
    let (lane, number, mode, parts, bytes) = row;
    match lines_of(rt, SCHEMA, lane).as_slice() {
        [only] => only.line == *number && is_asked(&only.op, *mode, parts, bytes),
        _ => false,
    }
}

fn is_asked(op: &Op, wanted: Option<Mode>, parts: &[&[u8]], bytes: &[u8]) -> bool {
    match op {
        Op::Set { index, key, value } => {
            *index == 1 && wanted.is_none() && has_fields(key, parts) && value.as_bytes() == bytes
        }
        Op::Seek { index, mode, tuple } => {
            *index == 1 && wanted == Some(*mode) && has_fields(tuple, parts)
        }
        _ => false,
    }
}

//! The most indexes, the longest keys and values, and escapes.
use crate::files::{Asking, BAD, LONG, READ, asks, error_of};
use crate::setup::MEMORY;
use key_tuple::{MAX_KEY_BYTES, MAX_VALUE_BYTES, Mode};
use script::{Flaw, ScriptError};
use std::process::Abort;

/// A schema of so many indexes.
fn indexes<R: AllocGlobal + Abort>(rt: &R, count: u32) -> String {
    let mut schema = String::new(rt.alloc());
    for i in 0..count {
        write!(schema, "index i{i} 1\n").expect(rt, MEMORY);
    }
    schema
}

/// A schema of so many indexes ends so.
fn indexes_end<R: AllocGlobal + Abort>(rt: &R, count: u32, end: Option<ScriptError>) -> bool {
    error_of(rt, false, indexes(rt, count).as_bytes()) == end
}

/// That the index behind the most is refused.
const ONE_MORE: Option<ScriptError> = Some(ScriptError::Flawed {
    line: 65,
    flaw: Flaw::BadLine,
});

#[test]
fn a_schema_has_64_indexes_at_most(rt: HostRuntime) {
    assert!(rt; indexes_end(&rt, 64, READ) && indexes_end(&rt, 65, ONE_MORE));
}

/// What stands before a key or the last field of a tuple, how many bytes that has, what stands
/// behind it, how many bytes follow, and how the lane ends.
type Lengths = (
    &'static [u8],
    usize,
    &'static [u8],
    usize,
    Option<ScriptError>,
);

static LENGTHS: [Lengths; 11] = [
    (b"put t ", MAX_KEY_BYTES, b" ", MAX_VALUE_BYTES, READ),
    (b"set t ", MAX_KEY_BYTES, b" ", MAX_VALUE_BYTES, READ),
    (b"put t ", 768, b" ", 1, LONG),
    (b"set t ", 768, b" ", 1, LONG),
    (b"put t ", 1, b" ", 2049, LONG),
    (b"set t ", 1, b" ", 2049, LONG),
    (b"put t ", 100_000, b" ", 100_000, LONG),
    (b"set t ", 100_000, b" ", 100_000, LONG),
    (b"seek two le ~,", MAX_KEY_BYTES, b"", 0, READ),
    (b"seek two le ~,", 768, b"", 0, LONG),
    (b"seek two lt ~,", 768, b"", 0, BAD),
];

/// Adds some bytes, and then so many of this one.
fn add<R: Abort>(rt: &R, line: &mut Vec<u8>, bytes: &[u8], byte: u8, count: usize) {
    line.extend_from_slice(bytes).expect(rt, MEMORY);
    let whole = line.len().wrapping_add(count);
    line.resize(whole, byte).expect(rt, MEMORY);
}

/// The lane ends as the row says.
fn ends_so<R: AllocGlobal + Abort>(rt: &R, row: &Lengths) -> bool {
    let (before, key, between, value, end) = row;
    let mut line = Vec::new(rt.alloc());
    add(rt, &mut line, before, b'k', *key);
    add(rt, &mut line, between, b'v', *value);
    error_of(rt, true, &line) == *end
}

#[test]
fn keys_values_and_tuples_have_their_limits(rt: HostRuntime) {
    for row in LENGTHS.iter() {
        assert!(rt; ends_so(&rt, row));
    }
}

/// Lanes of one line, its number, the mode of a seek, the fields, and the value of a set.
static LINES: [Asking; 5] = [
    (b"seek two ge a", 1, Some(Mode::Ge), &[b"a"], b""),
    (b"seek two g %2C", 1, Some(Mode::G), &[b","], b""),
    (b"seek two le ~", 1, Some(Mode::Le), &[b""], b""),
    (b"seek two l ab", 1, Some(Mode::L), &[b"ab"], b""),
    (
        b"\nset two %4A%2c,~ %00%ff\n",
        2,
        None,
        &[b"J,", b""],
        &[0, 255],
    ),
];

#[test]
fn modes_and_escapes_are_read(rt: HostRuntime) {
    for row in LINES.iter() {
        assert!(rt; asks(&rt, row));
    }
}

//! Keys, tuples, values and bytes; where memory lacks or they are refused, a test ends.
use key_tuple::{Fields, Key, Tuple, Value};
use std::process::Abort;

/// What a test says that ends for want of memory.
pub(crate) const MEMORY: &str = "memory";

/// The tuple of these fields.
pub(crate) fn tuple_of<R: AllocGlobal + Abort>(rt: &R, parts: &[&[u8]]) -> Tuple {
    Tuple::try_new(rt.alloc(), owned(rt, parts)).expect(rt, "a tuple")
}

/// The key of these fields.
pub(crate) fn key_of<R: AllocGlobal + Abort>(rt: &R, parts: &[&[u8]]) -> Key {
    let fields = owned(rt, parts);
    assert!(rt; !fields.is_empty());
    Key::try_new(rt.alloc(), fields).expect(rt, "a key")
}

/// The value of these bytes.
pub(crate) fn value_of<R: AllocGlobal + Abort>(rt: &R, bytes: &[u8]) -> Value {
    sample_rows::value_of(rt.alloc(), bytes).expect(rt, "a value")
}

/// These are the fields.
pub(crate) fn has_fields<K: Fields>(key: &K, parts: &[&[u8]]) -> bool {
    if usize::from(key.count()) != parts.len() {
        return false;
    }
    for i in 0..key.count() {
        if key.field(i) != parts[usize::from(i)] {
            return false;
        }
    }
    true
}

/// So many bytes.
pub(crate) fn zeros<R: AllocGlobal + Abort>(rt: &R, count: usize) -> Vec<u8> {
    vec![in rt.alloc(); 0; count].expect(rt, MEMORY)
}

/// Fields of these lengths.
pub(crate) fn of_lengths<R: AllocGlobal + Abort>(rt: &R, lengths: &[usize]) -> Vec<Vec<u8>> {
    let mut fields = Vec::new(rt.alloc());
    for length in lengths {
        fields.push(zeros(rt, *length)).expect(rt, MEMORY);
    }
    fields
}

fn owned<R: AllocGlobal + Abort>(rt: &R, parts: &[&[u8]]) -> Vec<Vec<u8>> {
    let mut fields = Vec::new(rt.alloc());
    for part in parts {
        let field = part.to_vec(rt.alloc()).expect(rt, MEMORY);
        fields.push(field).expect(rt, MEMORY);
    }
    fields
}

//! What is refused.
use crate::setup::{of_lengths, zeros};
use key_tuple::{Key, KeyError, Tuple, Value};
use std::process::Abort;

/// The lengths of fields, and why there is no such key and no such tuple. No fields are a tuple, and
/// no key is asked for.
static FIELDS: [(&[usize], Option<KeyError>); 8] = [
    (&[], None),
    (&[1, 1, 1, 1], None),
    (&[1, 1, 1, 1, 1], Some(KeyError::TooManyFields(5))),
    (&[0, 0, 0, 0, 768], Some(KeyError::TooManyFields(5))),
    (&[767], None),
    (&[768], Some(KeyError::TooLong(768))),
    (&[0, 700, 67], None),
    (&[700, 67, 0, 1], Some(KeyError::TooLong(768))),
];

/// The lengths of values, and why there is no such value.
static VALUES: [(usize, Option<KeyError>); 3] = [
    (0, None),
    (2048, None),
    (2049, Some(KeyError::TooLong(2049))),
];

#[test]
fn too_many_fields_and_bytes_are_refused(rt: HostRuntime) {
    for (lengths, refusal) in FIELDS.iter() {
        assert!(rt; are_refused_so(&rt, lengths, *refusal));
    }
}

#[test]
fn too_long_a_value_is_refused(rt: HostRuntime) {
    for (length, refusal) in VALUES.iter() {
        assert!(rt; Value::try_new(zeros(&rt, *length)).err() == *refusal);
    }
}

/// There is no tuple and no key of such fields, for this reason, or there are both.
fn are_refused_so<R: AllocGlobal + Abort>(
    rt: &R,
    lengths: &[usize],
    refusal: Option<KeyError>,
) -> bool {
    let tuple = Tuple::try_new(rt.alloc(), of_lengths(rt, lengths)).err();
    let fields = of_lengths(rt, lengths);
    let key = if fields.is_empty() {
        refusal
    } else {
        Key::try_new(rt.alloc(), fields).err()
    };
    tuple == refusal && key == refusal
}

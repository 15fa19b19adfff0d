//! Sizes on a page.
use crate::setup::{of_lengths, zeros};
use key_tuple::{Key, MAX_POINTER_SIZE, MAX_ROW_SIZE, Value, pointer_size, row_size};
use std::process::Abort;

/// The lengths of a row's fields and of its value, and the sizes of the row and of a pointer.
static ROWS: [(&[usize], usize, u16, u16); 7] = [
    (&[1], 1, 9, 11),
    (&[1], 127, 135, 11),
    (&[1], 128, 137, 11),
    (&[1], 2000, 2009, 11),
    (&[127], 0, 134, 137),
    (&[128], 0, 136, 139),
    (&[128, 128, 128, 383], 2048, MAX_ROW_SIZE, MAX_POINTER_SIZE),
];

#[test]
fn lengths_past_127_take_two_bytes(rt: HostRuntime) {
    for (lengths, length, row, pointer) in ROWS.iter() {
        assert!(rt; sizes_of(&rt, lengths, *length) == (*row, *pointer));
    }
}

// The sizes of a row with fields and a value of these lengths, and of a pointer.
fn sizes_of<R: AllocGlobal + Abort>(rt: &R, lengths: &[usize], length: usize) -> (u16, u16) {
    let fields = of_lengths(rt, lengths);
    assert!(rt; !fields.is_empty());
    let key = Key::try_new(rt.alloc(), fields).expect(rt, "a key");
    let value = Value::try_new(zeros(rt, length)).expect(rt, "a value");
    (row_size(&key, &value), pointer_size(&key))
}

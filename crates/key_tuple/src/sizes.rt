//! How many bytes a record takes on a page.
ghost use Rattle.std.specs.Prelude.{◌≡◌, ◌≤◌, ◌+◌, ◌*◌, length, sum_by};
ghost use Rattle.key_tuple.specs.Limits.{MAX_FIELDS, MAX_KEY_BYTES, MAX_VALUE_BYTES};
ghost use Rattle.key_tuple.specs.declared.TheConstants.{MAX_ROW_SIZE, MAX_POINTER_SIZE};
ghost use Rattle.key_tuple.specs.Sizes.{length_size, field_size, row_size_of, pointer_size_of};

use crate::fields::Fields;
use crate::key::Key;
use crate::tuple::Tuple;
use crate::value::Value;

/// The bytes of a record's head.
const HEAD_SIZE: u16 = 5;

/// The bytes of a child's number.
const CHILD_SIZE: u16 = 4;

/// The longest length that takes one byte.
const SHORT_LENGTH: usize = 127;

/// How many bytes a row takes: its head, its key's fields and its value, each with its length.
pub fn row_size(key: &Key, value: &Value) -> u16
    ensures size { result ≡ row_size_of key.now.tuple value.now }
    ensures most { result ≤ MAX_ROW_SIZE }
{
    HEAD_SIZE + fields_size(key.tuple()) + size_with_length(value.as_bytes())
}

/// How many bytes a pointer takes: its head, its key's fields, each with its length, and its child.
pub fn pointer_size(key: &Key) -> u16
    ensures size { result ≡ pointer_size_of key.now.tuple }
    ensures most { result ≤ MAX_POINTER_SIZE }
{
    HEAD_SIZE + fields_size(key.tuple()) + CHILD_SIZE
}

/// The fields, each with its length.
fn fields_size(tuple: &Tuple) -> u16
    ensures size { result ≡ sum_by field_size tuple.now.fields }
    ensures most { result ≤ 2 * MAX_FIELDS + MAX_KEY_BYTES }
{
    tuple.is_within_limits();
    let mut size = 0;
    for i in 0..tuple.count() {
        size += size_with_length(tuple.field(i));
    }
    size
}

/// A field or a value with its length.
fn size_with_length(bytes: &[u8]) -> u16
    requires { length bytes.now ≤ MAX_VALUE_BYTES }
    ensures { result ≡ field_size bytes.now }
{
    let len = bytes.len();
    let length_size = if len > SHORT_LENGTH { 2 } else { 1 };
    length_size + len as u16
}

//! What a page is charged for its rows.
ghost use Rattle.std.specs.Prelude.{◌≡◌, ◌≤◌, ◌<◌, ◌+◌, ◌*◌, length, sum_by};
ghost use Rattle.key_tuple.specs.Limits.{IsWithinLimits};
ghost use Rattle.key_tuple.specs.declared.TheConstants.{MAX_FIELDS, MAX_KEY_BYTES, MAX_VALUE_BYTES};
ghost use Rattle.key_tuple.specs.Sizes.{field_size};
ghost use Rattle.index_page.specs.declared.TheConstants.{MAX_CHARGE};
ghost use Rattle.index_page.specs.Rows.{body_by};
ghost use Rattle.index_page.specs.Loads.{charge_of};

use crate::body::Body;
use key_tuple::Fields;

/// The bytes of a record's head.
const HEAD_SIZE: u16 = 5;

/// The bytes of a child's number.
pub(crate) const CHILD_SIZE: u16 = 4;

/// The byte of the directory that each record has.
const DIRECTORY_SIZE: u16 = 1;

/// The longest length that takes one byte.
const SHORT_LENGTH: usize = 127;

/// What a page is charged for a row with this key and this beside it.
pub fn charge<A: Fields>(key: &A, body: Body<'_>) -> u16
    requires { IsWithinLimits (A.fields_of key.now) }
    ensures charge { result ≡ charge_of (A.fields_of key.now) (body_by body.entry) }
    ensures some { 0 < result }
    ensures most { result ≤ MAX_CHARGE }
{
    let beside = match body {
        Body::Value(value) => size_with_length(value.as_bytes()),
        Body::Child(_) => CHILD_SIZE,
    };
    record_charge(key, beside)
}

/// The charge of a record with so many bytes beside its key.
pub(crate) fn record_charge<A: Fields>(key: &A, beside: u16) -> u16
    requires limits { IsWithinLimits (A.fields_of key.now) }
    requires beside { beside ≤ 2 + MAX_VALUE_BYTES }
    ensures charge { result ≡ 5 + sum_by field_size (A.fields_of key.now) + beside + 1 }
    ensures most { result ≤ MAX_CHARGE }
{
    HEAD_SIZE + fields_size(key) + beside + DIRECTORY_SIZE
}

/// The fields, each with its length.
fn fields_size<A: Fields>(key: &A) -> u16
    requires { IsWithinLimits (A.fields_of key.now) }
    ensures size { result ≡ sum_by field_size (A.fields_of key.now) }
    ensures most { result ≤ 2 * MAX_FIELDS + MAX_KEY_BYTES }
{
    let mut size = 0;
    for i in 0..key.count() {
        size += size_with_length(key.field(i));
    }
    size
}

/// A field or a value with its length.
pub(crate) fn size_with_length(bytes: &[u8]) -> u16
    requires { length bytes.now ≤ MAX_VALUE_BYTES }
    ensures size { result ≡ field_size bytes.now }
    ensures most { result ≤ 2 + MAX_VALUE_BYTES }
{
    let len = bytes.len();
    let length_size = if len > SHORT_LENGTH { 2 } else { 1 };
    length_size + len as u16
}

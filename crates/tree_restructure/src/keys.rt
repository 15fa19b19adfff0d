//! Keys of their own, made of those of rows.
ghost use Rattle.std.specs.Prelude.{◌≡◌, ◌<◌, [], length, slice_index_or, IfOk};
ghost use Rattle.key_tuple.specs.Limits.{IsWithinLimits};

use key_tuple::{Fields, Key, NoMemory};
use std::alloc::{AllocError, Global};

/// A key with these fields. They are within the limits of a key, so only memory can lack.
pub(crate) fn own_key<A: Fields>(alloc: Global, fields: &A) -> Result<Key, NoMemory>
    requires some { 0 < length (A.fields_of fields.now) }
    requires limits { IsWithinLimits (A.fields_of fields.now) }
    ensures { IfOk result (λ key. key.tuple ≡ A.fields_of fields.now) }
{
    let mut copies = Vec::new(alloc);
    for i in 0..fields.count() {
        copies.push(own_field(alloc, fields, i)?)?;
    }
    Key::try_new(alloc, copies).map_err(|_| NoMemory)
}

/// A copy of one field.
fn own_field<A: Fields>(alloc: Global, fields: &A, i: u8) -> Result<Vec<u8>, AllocError>
    requires { i < length (A.fields_of fields.now) }
    ensures { IfOk result (λ copy. copy.items ≡ slice_index_or (A.fields_of fields.now) i []) }
{
    Vec::from_slice(alloc, fields.field(i))
}

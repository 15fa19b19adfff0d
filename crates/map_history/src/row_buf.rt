//! One row in a buffer of the caller's.
ghost use Rattle.std.specs.Prelude.{◌≡◌, ◌≤◌, [], length, IfOk};
ghost use Rattle.key_tuple.specs.Limits.{IsWithinLimits};
ghost use Rattle.key_tuple.specs.declared.TheConstants.{MAX_KEY_BYTES, MAX_VALUE_BYTES};

use key_tuple::{FieldBuffer, Fields, MAX_KEY_BYTES, MAX_VALUE_BYTES, NoMemory};
use std::alloc::Global;
use std::marker::Model;

/// One row, seen as its key's fields and its value. It has room for the largest row.
pub struct RowBuf {
    key: FieldBuffer,
    value: Vec<u8>,
}

// Written out, so that a crate above drops it by one call.
impl Drop for RowBuf {
    fn drop(self) {
        let Self { key: _, value: _ } = self;
    }
}

impl Model for RowBuf {
    ghost use Rattle.std.specs.Prelude.{◌≤◌, ◌<◌, vec_capacity, length};
    ghost use Rattle.key_tuple.specs.declared.TheConstants.{MAX_KEY_BYTES, MAX_VALUE_BYTES};
    ghost use Rattle.map_history.specs.Map.{Pair};

    ghost Value = { Pair };

    ghost view = { λ r. record { key = r.key.fields; value = r.value.items } };

    ghost invariant = { λ r. (MAX_KEY_BYTES ≤ r.key.room)
        × (MAX_VALUE_BYTES ≤ vec_capacity r.value) };
}

impl RowBuf {
    /// A buffer with no fields and an empty value.
    pub fn new(alloc: Global) -> Result<RowBuf, NoMemory>
        ensures { IfOk result (λ r. (r.key ≡ []) × (r.value ≡ [])) }
    {
        let value = Vec::with_capacity(alloc, MAX_VALUE_BYTES)?;
        let key = FieldBuffer::with_capacity(alloc, MAX_KEY_BYTES)?;
        Ok(RowBuf { key, value })
    }

    /// Puts a row in the place of the one before. It takes no memory.
    pub fn fill<A: Fields>(&mut self, key: &A, value: &[u8])
        requires key { IsWithinLimits (A.fields_of key.now) }
        requires value { length value.now ≤ MAX_VALUE_BYTES }
        ensures key { self.new.key ≡ A.fields_of key.now }
        ensures value { self.new.value ≡ value.now }
    {
        self.key.refill(key);
        self.value.clear();
        let _room_holds = self.value.extend_from_slice(value);
    }

    /// The value's bytes.
    pub fn value(&self) -> &[u8]
        ensures { result.now ≡ self.now.value }
    {
        &self.value
    }
}

impl Fields for RowBuf {
    ghost fields_of = { λ r. r.key };

    fn count(&self) -> u8 {
        self.key.count()
    }

    fn field(&self, i: u8) -> &[u8] {
        self.key.field(i)
    }
}

//! Fields in one buffer with the offsets of their ends.
ghost use Rattle.std.specs.Prelude.{◌≡◌, ◌+◌, ◌<◌, ◌≤◌, [], ◌∷◌, ◌++◌, length, IfOk, IsOk, OnOk, OnErr, slice_index, slice_index_or};
ghost use Rattle.key_tuple.specs.Order.{byte_count};
ghost use Rattle.key_tuple.specs.Limits.{FIELD_ROOM, IsWithinLimits, MAX_KEY_BYTES};
ghost use Rattle.key_tuple.specs.Parts.{parts, RiseTo};

use crate::FIELD_ROOM;
use crate::fields::Fields;
use std::alloc::{AllocError, Global};
use std::marker::Model;

/// Fields that lie one after another in one buffer: at most 4, and below 65,536 bytes together.
#[derive(Drop)]
pub struct FieldBuffer {
    bytes: Vec<u8>,
    ends: [u16; FIELD_ROOM],
    count: u8,
}

impl Model for FieldBuffer {
    ghost use Rattle.std.specs.Prelude.{take, vec_capacity};
    ghost use Rattle.key_tuple.specs.Parts.{Buffered, parts};

    ghost Value = { Buffered };

    ghost use Rattle.key_tuple.specs.Buffer.{IsBuffer};

    ghost view = { λ b. record {
      fields = parts b.bytes.items 0 (take b.count b.ends);
      room = vec_capacity b.bytes;
    } };

    ghost invariant = { IsBuffer };
}

impl FieldBuffer {
    /// No fields, with room for so many bytes.
    pub fn with_capacity(alloc: Global, bytes: usize) -> Result<FieldBuffer, AllocError>
        ensures { IfOk result (λ b. (b.fields ≡ []) × (b.room ≡ bytes)) }
    {
        Ok(FieldBuffer {
            bytes: Vec::with_capacity(alloc, bytes)?,
            ends: [0; FIELD_ROOM],
            count: 0,
        })
    }

    /// The fields of these bytes that end at these offsets. Nothing is copied.
    pub fn from_parts(bytes: Vec<u8>, ends: &[usize]) -> FieldBuffer
        requires few { length ends.now ≤ FIELD_ROOM }
        requires short { length bytes.items < 65536 }
        requires rise { RiseTo 0 ends.now (length bytes.items) }
        ensures { result.fields ≡ parts bytes.items 0 ends.now }
    {
        let mut offsets = [0; FIELD_ROOM];
        for (i, end) in ends.iter().enumerate() {
            offsets[i] = *end as u16;
        }
        FieldBuffer {
            bytes,
            ends: offsets,
            count: ends.len() as u8,
        }
    }

    /// Takes all fields out and keeps the room.
    pub fn clear(&mut self)
        ensures fields { self.new.fields ≡ [] }
        ensures room { self.new.room ≡ self.old.room }
    {
        self.bytes.clear();
        self.count = 0;
    }

    /// Puts a field behind the others. It can't fail while the room holds.
    pub fn push(&mut self, field: &[u8]) -> Result<(), AllocError>
        requires slot { length self.old.fields < FIELD_ROOM }
        requires short { byte_count self.old.fields + length field.now < 65536 }
        ensures ok { OnOk result (self.new.fields ≡ self.old.fields ++ field.now ∷ []) }
        ensures err { OnErr result (self.new.fields ≡ self.old.fields) }
        ensures fits { byte_count self.old.fields + length field.now ≤ self.old.room → IsOk result }
        ensures room { self.old.room ≤ self.new.room }
    {
        self.bytes.extend_from_slice(field)?;
        self.ends[usize::from(self.count)] = self.bytes.len() as u16;
        self.count += 1;
        Ok(())
    }

    /// Puts these fields in the place of those before, where there is room for each key. It takes
    /// no memory.
    pub fn refill<A: Fields>(&mut self, from: &A)
        requires limits { IsWithinLimits (A.fields_of from.now) }
        requires room { MAX_KEY_BYTES ≤ self.old.room }
        ensures fields { self.new.fields ≡ A.fields_of from.now }
        ensures room { self.old.room ≤ self.new.room }
    {
        self.clear();
        for i in 0..from.count() {
            let _room_holds = self.push(from.field(i));
        }
    }
}

impl Fields for FieldBuffer {
    ghost fields_of = { λ b. b.fields };

    fn count(&self) -> u8 {
        self.count
    }

    fn field(&self, i: u8) -> &[u8] {
        part(
            &self.bytes,
            &self.ends[..usize::from(self.count)],
            usize::from(i),
        )
    }
}

impl Clone for FieldBuffer {
    ghost is_clone = { λ b c. c.fields ≡ b.fields };

    fn clone(&self) -> Result<FieldBuffer, AllocError> {
        Ok(FieldBuffer {
            bytes: self.bytes.clone()?,
            ends: self.ends,
            count: self.count,
        })
    }
}

/// The part of the bytes with that number.
pub(crate) fn part<'a>(bytes: &'a [u8], ends: &[u16], i: usize) -> &'a [u8]
    requires at { i < length ends.now }
    requires rise { RiseTo 0 ends.now (length bytes.now) }
    ensures bytes { result.now ≡ slice_index_or (parts bytes.now 0 ends.now) i [] }
    ensures within { length result.now ≤ length bytes.now }
{
    let start = start_of(ends, i);
    let end = usize::from(ends[i]);
    &bytes[start..end]
}

/// Where that part begins: at the end of the part before it.
fn start_of(ends: &[u16], i: usize) -> usize
    requires { i < length ends.now }
    ensures { result ≡ slice_index (0 ∷ ends.now) i }
{
    if i == 0 { 0 } else { usize::from(ends[i - 1]) }
}

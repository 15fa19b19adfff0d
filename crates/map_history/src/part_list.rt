//! Byte lists that lie one after another in one buffer.
ghost use Rattle.std.specs.Prelude.{◌≡◌, ◌<◌, ◌≤◌, [], ◌∷◌, ◌++◌, length, take, OnOk, OnErr, slice_index, slice_index_or};

use std::alloc::{AllocError, Global};
use std::marker::Model;

/// Byte lists, told apart by the offsets of their ends.
#[derive(Drop)]
pub(crate) struct PartList {
    bytes: Vec<u8>,
    ends: Vec<usize>,
}

impl Model for PartList {
    ghost use Rattle.std.specs.Prelude.{length};
    ghost use Rattle.key_tuple.specs.Order.{FieldList};
    ghost use Rattle.key_tuple.specs.Parts.{parts, RiseTo};

    ghost Value = { FieldList };

    ghost view = { λ p. parts p.bytes.items 0 p.ends.items };

    ghost invariant = { λ p. RiseTo 0 p.ends.items (length p.bytes.items) };
}

impl PartList {
    pub(crate) fn new(alloc: Global) -> PartList
        ensures { result ≡ [] }
    {
        PartList {
            bytes: Vec::new(alloc),
            ends: Vec::new(alloc),
        }
    }

    pub(crate) fn count(&self) -> usize
        ensures { result ≡ length self.now }
    {
        self.ends.len()
    }

    pub(crate) fn part(&self, i: usize) -> &[u8]
        requires { i < length self.now }
        ensures { result.now ≡ slice_index_or self.now i [] }
    {
        let start = start_of(&self.ends, i);
        let end = self.ends[i];
        &self.bytes[start..end]
    }

    pub(crate) fn push(&mut self, part: &[u8]) -> Result<(), AllocError>
        ensures ok { OnOk result (self.new ≡ self.old ++ part.now ∷ []) }
        ensures err { OnErr result (self.new ≡ self.old) }
    {
        self.ends.reserve(1)?;
        self.bytes.extend_from_slice(part)?;
        let _room_holds = self.ends.push(self.bytes.len());
        Ok(())
    }

    /// Keeps the first ones.
    pub(crate) fn truncate(&mut self, count: usize)
        ensures { self.new ≡ take count self.old }
    {
        if count < self.ends.len() {
            let end = start_of(&self.ends, count);
            self.bytes.truncate(end);
            self.ends.truncate(count);
        }
    }
}

/// Where the part with that number begins: at the end of the part before it.
pub(crate) fn start_of(ends: &[usize], i: usize) -> usize
    requires { i ≤ length ends.now }
    ensures { result ≡ slice_index (0 ∷ ends.now) i }
{
    if i == 0 { 0 } else { ends[i - 1] }
}

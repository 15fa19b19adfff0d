//! Records by their numbers.
ghost use Rattle.std.specs.Prelude.{◌≡◌, ◌<◌, [], ◌∷◌, ◌++◌, length, set, slice_get, Some, IfOk, OnOk, OnErr, List};
ghost use Rattle.key_tuple.specs.Limits.{IsWithinLimits};
ghost use Rattle.index_page.specs.Store.{Content, beside_by};
ghost use Rattle.index_page.specs.Slots.{content_in, no_content, IsSlotIn};

use crate::appending::{append_copy, append_row};
use crate::body::Beside;
use crate::record::Record;
use crate::slot::Slot;
use key_tuple::{Fields, LentFields};
use std::alloc::{AllocError, Global};
use std::marker::Model;

/// How many bytes are left behind before the records are put anew.
const SPARE_BYTES: usize = 4096;

/// Records by their numbers, seen as the list of what they say. They lie in one run of bytes, in
/// which a record that goes, or moves since its value grew, leaves its bytes behind, and one whose
/// value gets shorter leaves some.
#[derive(Drop)]
pub(crate) struct Records {
    alloc: Global,
    pub(crate) bytes: Vec<u8>,
    pub(crate) slots: Vec<Slot>,
    /// How many bytes were left behind, or so: no clause speaks of it.
    left: usize,
}

impl Model for Records {
    ghost use Rattle.std.specs.Prelude.{List, map};
    ghost use Rattle.index_page.specs.Store.{Content};
    ghost use Rattle.index_page.specs.Slots.{content_in, AreSlots};

    ghost Value = { List Content };

    ghost view = { λ r. map (content_in r.bytes.items) r.slots.items };

    ghost invariant = { λ r. AreSlots r.bytes.items r.slots.items };
}

impl Records {
    /// No records.
    pub(crate) fn new(alloc: Global) -> Records
        ensures { result ≡ [] }
    {
        Records {
            alloc,
            bytes: Vec::new(alloc),
            slots: Vec::new(alloc),
            left: 0,
        }
    }

    /// Takes all records out, and keeps their room.
    pub(crate) fn clear(&mut self)
        ensures { self.new ≡ [] }
    {
        self.slots.clear();
        self.bytes.clear();
        self.left = 0;
    }

    /// How many there are.
    pub(crate) fn len(&self) -> usize
        ensures { result ≡ length self.now }
    {
        self.slots.len()
    }

    /// The record with that number.
    pub(crate) fn get(&self, number: usize) -> Record<'_>
        requires { number < length self.now }
        ensures { slice_get self.now number ≡ Some result }
    {
        let slot = &self.slots[number];
        let key = &self.bytes[slot.start as usize..slot.middle as usize];
        let value = &self.bytes[slot.middle as usize..slot.stop as usize];
        let fields = LentFields::new(key, &slot.ends[..usize::from(slot.count)]);
        Record::new(fields, value, slot.child)
    }

    /// Adds a record of nothing.
    pub(crate) fn add_blank(&mut self) -> Result<(), AllocError>
        ensures ok { OnOk result (self.new ≡ self.old ++ no_content ∷ []) }
        ensures err { OnErr result (self.new ≡ self.old) }
    {
        self.slots.reserve(1)?;
        self.slots.push_reserved(Slot::blank());
        Ok(())
    }

    /// Takes the last record out.
    pub(crate) fn drop_last(&mut self)
        ensures { (first : List Content) (last : Content) → self.old ≡ first ++ last ∷ []
            → self.new ≡ first }
    {
        let _ = self.slots.pop();
    }

    /// Puts a row in the place of a record.
    pub(crate) fn fill<A: Fields>(
        &mut self,
        number: usize,
        key: &A,
        beside: Beside<'_>,
    ) -> Result<(), AllocError>
        requires there { number < length self.old }
        requires key { IsWithinLimits (A.fields_of key.now) }
        ensures ok { OnOk result (self.new ≡ set self.old number
            (record { key = A.fields_of key.now; body = beside_by beside.entry })) }
        ensures err { OnErr result (self.new ≡ self.old) }
    {
        self.put_anew();
        let slot = append_row(&mut self.bytes, key, beside)?;
        self.slots[number] = slot;
        Ok(())
    }

    /// Takes out what the record says.
    pub(crate) fn blank(&mut self, number: usize)
        requires { number < length self.old }
        ensures { self.new ≡ set self.old number no_content }
    {
        let slot = self.slots[number];
        self.slots[number] = Slot::blank();
        self.leave(slot.start, slot.stop);
    }

    /// The same records, with nothing between them.
    pub(crate) fn copy(&self) -> Result<Records, AllocError>
        ensures { IfOk result (λ records. records ≡ self.now) }
    {
        let bytes = self.bytes.len().saturating_sub(self.left);
        let mut copy = Records {
            alloc: self.alloc,
            bytes: Vec::with_capacity(self.alloc, bytes)?,
            slots: Vec::with_capacity(self.alloc, self.slots.len())?,
            left: 0,
        };
        for slot in &self.slots {
            copy.add_copy(&self.bytes, slot)?;
        }
        Ok(copy)
    }

    /// Adds the record of a slot that lies in other bytes.
    fn add_copy(&mut self, from: &[u8], slot: &Slot) -> Result<(), AllocError>
        requires { IsSlotIn from.now slot.now }
        ensures { OnOk result (self.new ≡ self.old ++ content_in from.now slot.now ∷ []) }
    {
        self.slots.reserve(1)?;
        let moved = append_copy(&mut self.bytes, from, slot)?;
        self.slots.push_reserved(moved);
        Ok(())
    }

    /// Notes that the bytes between two places are left behind.
    pub(crate) fn leave(&mut self, start: u32, stop: u32)
        ensures { self.new ≡ self.old }
    {
        let bytes = stop.wrapping_sub(start) as usize;
        self.left = self.left.saturating_add(bytes);
    }

    /// Puts the records anew where much is left behind, if there is memory.
    pub(crate) fn put_anew(&mut self)
        ensures { self.new ≡ self.old }
    {
        if self.left > SPARE_BYTES && self.left > self.bytes.len() / 2 {
            if let Ok(records) = self.copy() {
                *self = records;
            }
        }
    }
}

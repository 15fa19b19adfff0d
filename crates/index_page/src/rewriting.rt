//! Records that get another value.
ghost use Rattle.std.specs.Prelude.{◌≡◌, ◌≤◌, ◌+◌, ◌++◌, length, set, take, drop, OnOk, OnErr, IsOk};
ghost use Rattle.index_page.specs.Rows.{Bytes};
ghost use Rattle.index_page.specs.Slots.{CarriesAt};

use crate::appending::append_again;
use crate::records::Records;
use crate::slot::Slot;
use std::alloc::AllocError;

impl Records {
    /// Writes another value in the place of the one before. It takes no memory where the value is
    /// no longer than that.
    pub(crate) fn rewrite(&mut self, number: usize, value: &[u8]) -> Result<(), AllocError>
        requires { CarriesAt self.old number }
        ensures ok { (carries : CarriesAt self.old number) → OnOk result (self.new
            ≡ set self.old number (record { key = carries.key; body = Bytes value.now })) }
        ensures in_place { (carries : CarriesAt self.old number)
            → length value.now ≤ length carries.value → IsOk result }
        ensures err { OnErr result (self.new ≡ self.old) }
    {
        let slot = &self.slots[number];
        if value.len() <= (slot.stop - slot.middle) as usize {
            self.write_over(number, value);
            return Ok(());
        }
        self.put_anew();
        self.write_behind(number, value)
    }

    /// The same of a value that is no longer.
    fn write_over(&mut self, number: usize, value: &[u8])
        requires there { CarriesAt self.old number }
        requires short { (carries : CarriesAt self.old number)
            → length value.now ≤ length carries.value }
        ensures { (carries : CarriesAt self.old number) → self.new
            ≡ set self.old number (record { key = carries.key; body = Bytes value.now }) }
    {
        let slot = self.slots[number];
        put_bytes(&mut self.bytes, slot.middle as usize, value);
        let cut = Slot {
            stop: slot.middle + value.len() as u32,
            ..slot
        };
        self.slots[number] = cut;
        self.leave(cut.stop, slot.stop);
    }

    /// Puts the record once more behind all others, with another value.
    fn write_behind(&mut self, number: usize, value: &[u8]) -> Result<(), AllocError>
        requires { CarriesAt self.old number }
        ensures ok { (carries : CarriesAt self.old number) → OnOk result (self.new
            ≡ set self.old number (record { key = carries.key; body = Bytes value.now })) }
        ensures err { OnErr result (self.new ≡ self.old) }
    {
        let slot = self.slots[number];
        let moved = append_again(&mut self.bytes, &slot, value)?;
        self.slots[number] = moved;
        self.leave(slot.start, slot.stop);
        Ok(())
    }
}

/// Writes over so many bytes from `at` on.
fn put_bytes(bytes: &mut Vec<u8>, at: usize, part: &[u8])
    requires { at + length part.now ≤ length bytes.old.items }
    ensures { bytes.new.items ≡ take at bytes.old.items
        ++ (part.now ++ drop (at + length part.now) bytes.old.items) }
{
    bytes[at..at + part.len()].copy_from_slice(part);
}

//! Records that are put behind others.
ghost use Rattle.std.specs.Prelude.{◌≡◌, IfOk, OnErr};
ghost use Rattle.key_tuple.specs.Limits.{IsWithinLimits};
ghost use Rattle.index_page.specs.Store.{body_from, beside_by};
ghost use Rattle.index_page.specs.Slots.{content_in, IsSlotIn, GrewFrom, PutsFields, PutsBeside, PutsRecord};

use crate::body::Beside;
use crate::slot::Slot;
use key_tuple::{FIELD_ROOM, Fields};
use std::alloc::AllocError;

/// Puts a row's record behind the bytes, and tells where it lies.
pub(crate) fn append_row<A: Fields>(
    bytes: &mut Vec<u8>,
    key: &A,
    beside: Beside<'_>,
) -> Result<Slot, AllocError>
    requires { IsWithinLimits (A.fields_of key.now) }
    ensures ok { IfOk result (λ slot. PutsRecord bytes.old.items bytes.new.items slot
        (record { key = A.fields_of key.now; body = beside_by beside.entry })) }
    ensures err { OnErr result (GrewFrom bytes.old.items bytes.new.items) }
{
    let start = bytes.len();
    let ends = append_fields(bytes, key)?;
    let middle = bytes.len();
    let child = append_beside(bytes, beside)?;
    let slot = Slot {
        child,
        ends,
        count: key.count(),
        ..Slot::blank()
    };
    slot.moved(start, middle, bytes.len())
}

/// Puts the record of a slot that lies in other bytes behind these.
pub(crate) fn append_copy(bytes: &mut Vec<u8>, from: &[u8], slot: &Slot) -> Result<Slot, AllocError>
    requires { IsSlotIn from.now slot.now }
    ensures ok { IfOk result (λ moved.
        PutsRecord bytes.old.items bytes.new.items moved (content_in from.now slot.now)) }
    ensures err { OnErr result (GrewFrom bytes.old.items bytes.new.items) }
{
    let start = bytes.len();
    bytes.extend_from_slice(&from[slot.start as usize..slot.stop as usize])?;
    let middle = start + (slot.middle - slot.start) as usize;
    slot.moved(start, middle, bytes.len())
}

/// Puts the key of a slot's record once more behind the bytes, with another value.
pub(crate) fn append_again(
    bytes: &mut Vec<u8>,
    slot: &Slot,
    value: &[u8],
) -> Result<Slot, AllocError>
    requires { IsSlotIn bytes.old.items slot.now }
    ensures ok { IfOk result (λ moved. PutsRecord bytes.old.items bytes.new.items moved (record {
      key = (content_in bytes.old.items slot.now).key;
      body = body_from value.now slot.now.child;
    })) }
    ensures err { OnErr result (GrewFrom bytes.old.items bytes.new.items) }
{
    let start = bytes.len();
    bytes.extend_from_within(slot.start as usize..slot.middle as usize)?;
    let middle = bytes.len();
    bytes.extend_from_slice(value)?;
    slot.moved(start, middle, bytes.len())
}

/// Puts the fields one behind another, and tells where they end.
fn append_fields<A: Fields>(
    bytes: &mut Vec<u8>,
    fields: &A,
) -> Result<[u16; FIELD_ROOM], AllocError>
    requires { IsWithinLimits (A.fields_of fields.now) }
    ensures ok { IfOk result (PutsFields bytes.old.items bytes.new.items
        (A.fields_of fields.now)) }
    ensures err { OnErr result (GrewFrom bytes.old.items bytes.new.items) }
{
    let start = bytes.len();
    let mut ends = [0; FIELD_ROOM];
    for i in 0..fields.count() {
        bytes.extend_from_slice(fields.field(i))?;
        ends[usize::from(i)] = (bytes.len() - start) as u16;
    }
    Ok(ends)
}

/// Puts a value's bytes, or tells the child.
fn append_beside(bytes: &mut Vec<u8>, beside: Beside<'_>) -> Result<Option<u32>, AllocError>
    ensures ok { IfOk result (λ child.
        PutsBeside bytes.old.items bytes.new.items child (beside_by beside.entry)) }
    ensures err { OnErr result (bytes.new.items ≡ bytes.old.items) }
{
    match beside {
        Beside::Value(value) => {
            bytes.extend_from_slice(value)?;
            Ok(None)
        }
        Beside::Child(number) => Ok(Some(number)),
    }
}

//! Slots, each of which names a record's origin.

ghost use Rattle.std.specs.Prelude.{◌≡◌, ◌+◌, ◌-◌, ◌*◌, ◌≤◌, ◌<◌, ℕ, length, slice_index, slice_set};
ghost use Rattle.std.specs.List.{insert, remove};
ghost use Rattle.compact_record.specs.Bytes.{SameOutside};
ghost use Rattle.page_mirror.specs.Words.{slot_word};
ghost use Rattle.page_mirror.specs.Mirror.{Mirror, Mirrors};
ghost use Rattle.page_mirror.specs.Steps.{HasOrigin, naming};
ghost use Rattle.page_mirror.specs.Slots.{OpensSlot, ClosesSlot};

use crate::numbers::{N_DIR_SLOTS, slot_count};
use compact_record::{get_u16, put_u16};

/// The origin of the record that a slot names.
pub fn slot_owner(page: &[u8], slot: u16) -> u16
    requires { (m : Mirror) × Mirrors page.now m × (slot < length m.slots) }
    ensures { (m : Mirror) → Mirrors page.now m → slot < length m.slots
        → HasOrigin page.now m (slice_index m.slots slot) result }
{
    get_slot(page, slot)
}

/// Lets a slot name another record.
pub fn name_slot(page: &mut [u8], slot: u16, at: u16)
    requires { (m : Mirror) × Mirrors page.old m × (slot < length m.slots) }
    ensures { (m : Mirror) (h : ℕ) → slot < length m.slots → HasOrigin page.old m h at
        → Mirrors page.new (naming m (slice_set m.slots slot h)) }
{
    put_slot(page, slot, at);
}

/// Gives a record a slot of its own, and moves those from there on along.
pub fn open_slot(page: &mut [u8], slot: u16, at: u16)
    requires { (m : Mirror) × Mirrors page.old m × (slot ≤ length m.slots)
        × (m.top + 2 * length m.slots + 2 ≤ 16376) }
    ensures { (m : Mirror) (h : ℕ) → slot ≤ length m.slots
        → m.top + 2 * length m.slots + 2 ≤ 16376 → HasOrigin page.old m h at
        → Mirrors page.new (naming m (insert m.slots slot h)) }
{
    let count = slot_count(page);
    move_on(page, count, slot, at);
    put_u16(page, N_DIR_SLOTS, count + 1);
}

/// Takes a slot away, and moves those behind it back.
pub fn close_slot(page: &mut [u8], slot: u16)
    requires { (m : Mirror) × Mirrors page.old m × (slot < length m.slots) }
    ensures { (m : Mirror) → Mirrors page.old m → slot < length m.slots
        → Mirrors page.new (naming m (remove m.slots slot)) }
{
    let count = slot_count(page);
    move_back(page, count, slot);
    put_u16(page, N_DIR_SLOTS, count - 1);
}

fn get_slot(page: &[u8], slot: u16) -> u16
    requires page { length page.now ≡ 16384 }
    requires slot { slot < 8150 }
    ensures { result ≡ slot_word page.now slot }
{
    get_u16(page, 16374 - 2 * slot as usize)
}

fn put_slot(page: &mut [u8], slot: u16, at: u16)
    requires page { length page.old ≡ 16384 }
    requires slot { slot < 8150 }
    ensures value { slot_word page.new slot ≡ at }
    ensures kept { SameOutside page.old page.new (16374 - 2 * slot) (16376 - 2 * slot) }
{
    put_u16(page, 16374 - 2 * slot as usize, at);
}

/// Moves the slots from `slot` on, of `count`, along by one, and lets `slot` name this origin.
fn move_on(page: &mut [u8], count: u16, slot: u16, at: u16)
    requires page { length page.old ≡ 16384 }
    requires count { count < 8149 }
    requires slot { slot ≤ count }
    ensures { OpensSlot page.old page.new count slot at }
{
    let mut s = count;
    while s > slot {
        s -= 1;
        let owner = get_slot(page, s);
        put_slot(page, s + 1, owner);
    }
    put_slot(page, slot, at);
}

/// Moves the slots behind `slot`, of `count`, back by one, and clears the last one.
fn move_back(page: &mut [u8], count: u16, slot: u16)
    requires page { length page.old ≡ 16384 }
    requires count { count < 8150 }
    requires slot { slot < count }
    ensures { ClosesSlot page.old page.new count slot }
{
    for s in slot + 1..count {
        let owner = get_slot(page, s);
        put_slot(page, s - 1, owner);
    }
    put_slot(page, count - 1, 0);
}

//! A slot with too few records.

ghost use Rattle.std.specs.Prelude.{◌≡◌, ◌+◌, ◌≤◌, ◌<◌, List, ℕ, slice_index};
ghost use Rattle.page_mirror.specs.Mirror.{Mirror};
ghost use Rattle.page_directory.specs.Groups.{Group};
ghost use Rattle.page_directory.specs.Sizes.{group_sizes, sizes_balanced, sizes_joined, sizes_moved};
ghost use Rattle.page_directory.specs.Calls.{CanBalanceSlot, Regroups};

use crate::owners::owned;
use page_mirror::{close_slot, name_slot, next_of, own, slot_owner};

/// Gives a slot with three records one of the next slot's where that has more than four, and else
/// makes one slot of the two.
pub fn balance(page: &mut [u8], slot: u16)
    requires { (m : Mirror) × (gs : List Group) × (free : List ℕ)
        × CanBalanceSlot page.old m gs free slot }
    ensures { (m : Mirror) (gs : List Group) (free : List ℕ)
        → CanBalanceSlot page.old m gs free slot
        → Regroups page.new m gs free (sizes_balanced slot (group_sizes gs)) }
{
    let count = owned(page, slot + 1);
    if count > 4 {
        move_one(page, slot, count);
    } else {
        join_next(page, slot, count);
    }
}

/// Lets the first record of the next slot, which has `count`, be the owner of this one.
fn move_one(page: &mut [u8], slot: u16, count: u8)
    requires there { (m : Mirror) × (gs : List Group) × (free : List ℕ)
        × CanBalanceSlot page.old m gs free slot × (slice_index (group_sizes gs) (slot + 1) ≡ count) }
    requires many { 4 < count }
    ensures { (m : Mirror) (gs : List Group) (free : List ℕ)
        → CanBalanceSlot page.old m gs free slot
        → slice_index (group_sizes gs) (slot + 1) ≡ count
        → Regroups page.new m gs free (sizes_moved slot count (group_sizes gs)) }
{
    let owner = slot_owner(page, slot);
    let next = slot_owner(page, slot + 1);
    let first = next_of(page, owner);
    own(page, owner, 0);
    own(page, first, 4);
    own(page, next, count - 1);
    name_slot(page, slot, first);
}

/// Takes the slot away, so that its records are those of the next slot, which has `count`.
fn join_next(page: &mut [u8], slot: u16, count: u8)
    requires there { (m : Mirror) × (gs : List Group) × (free : List ℕ)
        × CanBalanceSlot page.old m gs free slot × (slice_index (group_sizes gs) (slot + 1) ≡ count) }
    requires few { count ≤ 4 }
    ensures { (m : Mirror) (gs : List Group) (free : List ℕ)
        → CanBalanceSlot page.old m gs free slot
        → slice_index (group_sizes gs) (slot + 1) ≡ count
        → Regroups page.new m gs free (sizes_joined slot count (group_sizes gs)) }
{
    let owner = slot_owner(page, slot);
    let next = slot_owner(page, slot + 1);
    own(page, owner, 0);
    own(page, next, count + 3);
    close_slot(page, slot);
}

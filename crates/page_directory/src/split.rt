//! A slot that becomes two.

ghost use Rattle.std.specs.Prelude.{◌≡◌, List, ℕ};
ghost use Rattle.page_mirror.specs.Mirror.{Mirror};
ghost use Rattle.page_mirror.specs.Steps.{HasOrigin};
ghost use Rattle.page_directory.specs.Groups.{Group};
ghost use Rattle.page_directory.specs.Sizes.{group_sizes, sizes_split};
ghost use Rattle.page_directory.specs.Calls.{CanSplitSlot, Regroups};

use page_mirror::{next_of, open_slot, own, slot_owner};

/// Gives the fourth of a slot's nine records a slot of its own, and four of them.
pub fn split_slot(page: &mut [u8], slot: u16)
    requires { (m : Mirror) × (gs : List Group) × (free : List ℕ)
        × CanSplitSlot page.old m gs free slot }
    ensures { (m : Mirror) (gs : List Group) (free : List ℕ)
        → CanSplitSlot page.old m gs free slot
        → Regroups page.new m gs free (sizes_split slot (group_sizes gs)) }
{
    let owner = slot_owner(page, slot);
    let last = slot_owner(page, slot - 1);
    let fourth = fourth_after(page, last);
    own(page, fourth, 4);
    own(page, owner, 5);
    open_slot(page, slot, fourth);
}

/// The origin of the fourth record behind this one.
fn fourth_after(page: &[u8], at: u16) -> u16
    requires { (m : Mirror) × (h : ℕ) × HasOrigin page.now m h at }
    ensures { (m : Mirror) (h : ℕ) → HasOrigin page.now m h at
        → HasOrigin page.now m (m.next (m.next (m.next (m.next h)))) result }
{
    let first = next_of(page, at);
    let second = next_of(page, first);
    let third = next_of(page, second);
    next_of(page, third)
}

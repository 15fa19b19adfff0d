//! A record that leaves the list.
ghost use Rattle.std.specs.Prelude.{◌≡◌, ◌+◌, ◌≤◌, ◌<◌, List, ℕ, length};
ghost use Rattle.page_mirror.specs.Mirror.{Mirror};
ghost use Rattle.page_mirror.specs.Steps.{HasOrigin};
ghost use Rattle.page_directory.specs.Groups.{Group};
ghost use Rattle.page_directory.specs.Sizes.{group_sizes};
ghost use Rattle.page_directory.specs.Calls.{Regroups};
ghost use Rattle.page_list.specs.Leaving.{Between, CanLeave, LeavesList, GroupAround, IsAround, IsPassedOver, IsLinkedOut, HasShortSlot, sizes_mended, heir_of, slot_goes};

use page_directory::{balance, find_owner, find_slot, owned};
use page_mirror::{
    lead, name_slot, next_of, own, owns, row_count, set_row_count, slot_count, slot_owner,
};

/// Takes the record with the origin `at`, which is neither infimum nor supremum, out of the list. A
/// slot that has three records then gets one of the next slot's, or is one with it.
pub fn leave_list(page: &mut [u8], at: u16)
    requires { (m : Mirror) × (gs : List Group) × (free : List ℕ) × (b : Between)
        × CanLeave page.old m gs free b at }
    ensures { (m : Mirror) (gs : List Group) (free : List ℕ) (b : Between)
        → CanLeave page.old m gs free b at → LeavesList page.new m gs free b }
{
    let owner = find_owner(page, at);
    let slot = find_slot(page, owner);
    let before = find_previous(page, slot, at);
    pass_over(page, before, at, owner, slot);
    mend_slot(page, slot);
    own(page, at, 0);
}

/// Whether the slot of the record with the origin `at` goes with it.
pub fn loses_slot(page: &[u8], at: u16) -> bool
    requires { (m : Mirror) × (gs : List Group) × (free : List ℕ) × (b : Between)
        × CanLeave page.now m gs free b at }
    ensures { (m : Mirror) (gs : List Group) (free : List ℕ) (b : Between)
        → CanLeave page.now m gs free b at
        → result ≡ slot_goes (group_sizes gs) (length b.low + 1) }
{
    let slot = find_slot(page, find_owner(page, at));
    if owned(page, slot) != 4 {
        return false;
    }
    if slot + 1 == slot_count(page) {
        return false;
    }
    owned(page, slot + 1) <= 4
}

/// The origin of the record that leads to the one with the origin `at`, which is of this slot.
fn find_previous(page: &[u8], slot: u16, at: u16) -> u16
    requires { (m : Mirror) × (gs : List Group) × (free : List ℕ) × (b : Between)
        × (w : GroupAround gs b) × IsAround page.now m gs free b w slot at }
    ensures { (m : Mirror) (gs : List Group) (free : List ℕ) (b : Between) (w : GroupAround gs b)
        → IsAround page.now m gs free b w slot at → HasOrigin page.now m b.p result }
{
    let mut before = slot_owner(page, slot - 1);
    for _ in 0..8u8 {
        let next = next_of(page, before);
        if next == at {
            return before;
        }
        before = next;
    }
    before
}

/// Lets the record before lead to the one behind, and own this one's group where this one did.
fn pass_over(page: &mut [u8], before: u16, at: u16, owner: u16, slot: u16)
    requires { (m : Mirror) × (gs : List Group) × (free : List ℕ) × (b : Between)
        × (w : GroupAround gs b) × IsPassedOver page.old m gs free b w before at owner slot }
    ensures { (m : Mirror) (gs : List Group) (free : List ℕ) (b : Between) (w : GroupAround gs b)
        → IsPassedOver page.old m gs free b w before at owner slot
        → IsLinkedOut page.new m gs free b w }
{
    let next = next_of(page, at);
    let count = owns(page, owner);
    let rows = row_count(page);
    let heir = heir(before, at, owner);
    lead(page, before, next);
    own(page, heir, count - 1);
    name_slot(page, slot, heir);
    set_row_count(page, rows - 1);
}

/// Who owns a group once this record left it.
fn heir(before: u16, at: u16, owner: u16) -> u16
    ensures { result ≡ heir_of before at owner }
{
    if owner == at { before } else { owner }
}

/// Balances a slot that was left with three records, where it isn't the last.
fn mend_slot(page: &mut [u8], slot: u16)
    requires { (m : Mirror) × (gs : List Group) × (free : List ℕ)
        × HasShortSlot page.old m gs free slot }
    ensures { (m : Mirror) (gs : List Group) (free : List ℕ) → HasShortSlot page.old m gs free slot
        → Regroups page.new m gs free (sizes_mended slot (group_sizes gs)) }
{
    let count = owned(page, slot);
    if slot + 1 < slot_count(page) && count == 3 {
        balance(page, slot);
    }
}

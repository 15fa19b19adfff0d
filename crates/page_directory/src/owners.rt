//! Records and their owners.

ghost use Rattle.std.specs.Prelude.{◌≡◌, ◌+◌, ◌≤◌, ◌<◌, List, ℕ, length, slice_index};
ghost use Rattle.page_mirror.specs.Mirror.{Mirror, Mirrors};
ghost use Rattle.page_mirror.specs.Steps.{HasOrigin};
ghost use Rattle.page_directory.specs.Groups.{Group, HasGroups};
ghost use Rattle.page_directory.specs.Sizes.{group_sizes};
ghost use Rattle.page_directory.specs.Owners.{IsRecordOf, IsOwnerOf};

use page_mirror::{next_of, owns, slot_count, slot_owner};

/// How many records a slot's owner owns.
pub fn owned(page: &[u8], slot: u16) -> u8
    requires { (m : Mirror) × (gs : List Group) × (free : List ℕ)
        × HasGroups page.now m gs free × (slot < length gs) }
    ensures { (m : Mirror) (gs : List Group) (free : List ℕ) → HasGroups page.now m gs free
        → slot < length gs → result ≡ slice_index (group_sizes gs) slot }
{
    owns(page, slot_owner(page, slot))
}

/// The origin of the record that owns the one with this origin.
pub fn find_owner(page: &[u8], at: u16) -> u16
    requires { (m : Mirror) × (gs : List Group) × (free : List ℕ) × (s : ℕ) × (h : ℕ)
        × IsRecordOf page.now m gs free s h at }
    ensures { (m : Mirror) (gs : List Group) (free : List ℕ) (s h : ℕ)
        → IsRecordOf page.now m gs free s h at → IsOwnerOf page.now m gs free s result }
{
    let mut owner = at;
    for _ in 0..8u8 {
        if owns(page, owner) > 0 {
            return owner;
        }
        owner = next_of(page, owner);
    }
    owner
}

/// The slot that names the owner with this origin.
pub fn find_slot(page: &[u8], owner: u16) -> u16
    requires { (m : Mirror) × (gs : List Group) × (free : List ℕ) × (s : ℕ)
        × IsOwnerOf page.now m gs free s owner }
    ensures { (m : Mirror) (gs : List Group) (free : List ℕ) (s : ℕ)
        → IsOwnerOf page.now m gs free s owner → result ≡ s }
{
    let count = slot_count(page);
    for slot in 0..count {
        if slot_owner(page, slot) == owner {
            return slot;
        }
    }
    count
}

//! A record that comes into the list.
ghost use Rattle.std.specs.Prelude.{◌≡◌, ◌+◌, ◌≤◌, ◌<◌, List, ℕ};
ghost use Rattle.page_mirror.specs.Mirror.{Mirror};
ghost use Rattle.page_directory.specs.Groups.{Group};
ghost use Rattle.page_list.specs.Entering.{Gap, CanEnter, Enters, GapGroup, IsGapOf, IsLinkedIn};

use page_directory::{find_owner, find_slot, split_slot};
use page_mirror::{lead, next_of, own, owns, row_count, set_row_count};

/// Puts the record with the origin `at` into the list, behind the one with the origin `before`.
/// A slot that has nine records then becomes two.
pub fn enter_list(page: &mut [u8], before: u16, at: u16)
    requires { (m : Mirror) × (gs : List Group) × (free : List ℕ) × (g : Gap)
        × CanEnter page.old m gs free g before at }
    ensures { (m : Mirror) (gs : List Group) (free : List ℕ) (g : Gap)
        → CanEnter page.old m gs free g before at → Enters page.new m free g }
{
    let next = next_of(page, before);
    let owner = find_owner(page, next);
    let count = owns(page, owner);
    if count == 8 {
        let slot = find_slot(page, owner);
        link_between(page, before, at, owner);
        split_slot(page, slot);
    } else {
        link_between(page, before, at, owner);
    }
}

/// The same, where the owner of the one behind the record is told, and no slot becomes two.
fn link_between(page: &mut [u8], before: u16, at: u16, owner: u16)
    requires { (m : Mirror) × (gs : List Group) × (free : List ℕ) × (g : Gap)
        × (w : GapGroup gs g) × IsGapOf page.old m gs free g w before at owner }
    ensures { (m : Mirror) (gs : List Group) (free : List ℕ) (g : Gap) (w : GapGroup gs g)
        → IsGapOf page.old m gs free g w before at owner → IsLinkedIn page.new m gs free g w }
{
    let next = next_of(page, before);
    let count = owns(page, owner);
    let rows = row_count(page);
    lead(page, at, next);
    lead(page, before, at);
    own(page, owner, count + 1);
    set_row_count(page, rows + 1);
}

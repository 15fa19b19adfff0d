//! A row that goes from a page.
ghost use Rattle.std.specs.Prelude.{◌≡◌, ◌-◌, ◌≤◌, ◌<◌, List, ℕ, [], ◌∷◌, length, if◌then◌else◌};
ghost use Rattle.index_page.specs.Rows.{Row};
ghost use Rattle.index_page.specs.Loads.{charge_of};
ghost use Rattle.page_rows.specs.Inserting.{gaps_in_bytes};
ghost use Rattle.page_rows.specs.Slots.{sizes_in_bytes};
ghost use Rattle.page_rows.specs.Spelling.{PageParts, SpellsRows};
ghost use Rattle.page_rows.specs.Deleting.{CanDeleteRow, DeletesInBytes, IsLoose, freed_parts, origin_after, gaps_after};

use crate::room::page_rest;
use compact_record::measure;
use index_page::Gaps;
use page_list::{leave_list, loses_slot};
use page_mirror::{first_free, garbage, lead, set_first_free, set_garbage};

/// Takes the row at a place out. Its record is the free list's head then.
pub fn delete_row(page: &mut [u8], fields: u8, place: u16)
    requires { (left : List Row) × (row : Row) × (right : List Row)
        × CanDeleteRow page.old fields left row right place }
    ensures { (left : List Row) (row : Row) (right : List Row)
        → CanDeleteRow page.old fields left row right place
        → DeletesInBytes page.old page.new fields left row right }
{
    let extent = measure(page, place, fields);
    leave_list(page, place);
    free_record(page, place, extent.end - extent.start);
}

/// The gaps of the page once the row at a place is gone.
pub fn gaps_without(page: &[u8], fields: u8, place: u16) -> Gaps
    requires { (left : List Row) × (row : Row) × (right : List Row)
        × CanDeleteRow page.now fields left row right place }
    ensures { (left : List Row) (row : Row) (right : List Row)
        → CanDeleteRow page.now fields left row right place
        → result ≡ gaps_after (gaps_in_bytes page.now fields) (sizes_in_bytes page.now)
        (length left) (charge_of row.key row.body - 1) }
{
    let extent = measure(page, place, fields);
    let rest = page_rest(page);
    let goes = loses_slot(page, place);
    Gaps {
        head: extent.end - extent.start,
        rest: rest + slot_bytes(goes),
    }
}

/// How many bytes a slot leaves, if it goes.
fn slot_bytes(goes: bool) -> u16
    ensures { result ≡ if goes then 2 else 0 }
{
    if goes { 2 } else { 0 }
}

/// Puts a record of so many bytes, which is in no list, at the free list's head.
fn free_record(page: &mut [u8], at: u16, size: u16)
    requires { (fields : ℕ) × (p : PageParts) × (h : ℕ) × IsLoose page.old fields p h at size }
    ensures { (fields : ℕ) (p : PageParts) (h : ℕ) → IsLoose page.old fields p h at size
        → SpellsRows page.new fields (freed_parts p h) [] }
{
    let head = first_free(page);
    let wasted = garbage(page);
    lead(page, at, free_behind(head, at));
    set_first_free(page, at);
    set_garbage(page, wasted + size);
}

/// Where a freed record leads: to the free list's head, or to itself where the list is empty.
fn free_behind(head: u16, at: u16) -> u16
    ensures { result ≡ origin_after head at }
{
    if head == 0 { at } else { head }
}

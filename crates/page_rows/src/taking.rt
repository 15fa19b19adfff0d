//! A record that gets bytes of the page: those of a freed one, or those behind all records.
ghost use Rattle.std.specs.Prelude.{◌≡◌, ◌&&◌, nat_eq, nat_le, if◌then◌else◌};
ghost use Rattle.compact_record.specs.Bytes.{u16_at};
ghost use Rattle.page_rows.specs.Spelling.{PageParts};
ghost use Rattle.page_rows.specs.Inserting.{CanTake, IsTaken, CanTakeFree, head_start};

use crate::room::page_room;
use compact_record::RecordKind;
use index_page::Gaps;
use key_tuple::Fields;
use page_heap::{write_behind, write_over};
use page_mirror::{first_free, garbage, next_of, set_first_free, set_garbage};

/// Writes a record where some gap takes it, the free list's head first, and answers its origin. It
/// is in no list yet.
pub(crate) fn take_room<A: Fields>(
    page: &mut [u8],
    fields: u8,
    kind: RecordKind,
    key: &A,
    tail: &[u8],
    size: u16,
) -> u16
    requires { (p : PageParts)
        × CanTake page.old fields p kind (A.fields_of key.now) tail.now size }
    ensures { (p : PageParts) → CanTake page.old fields p kind (A.fields_of key.now) tail.now size
        → IsTaken page.new fields p kind (A.fields_of key.now) tail.now result }
{
    let room = page_room(page, fields);
    if fits_free(room.gaps, size) {
        take_free(page, room.start, fields, kind, key, tail, size)
    } else {
        write_behind(page, kind, key, tail, size)
    }
}

/// Writes it where the free list's head begins, at `start`, and lets the list begin with the next
/// one.
fn take_free<A: Fields>(
    page: &mut [u8],
    start: u16,
    fields: u8,
    kind: RecordKind,
    key: &A,
    tail: &[u8],
    size: u16,
) -> u16
    requires start { start ≡ head_start page.old fields (u16_at page.old 44) }
    requires there { (p : PageParts)
        × CanTakeFree page.old fields p kind (A.fields_of key.now) tail.now size }
    ensures { (p : PageParts)
        → CanTakeFree page.old fields p kind (A.fields_of key.now) tail.now size
        → IsTaken page.new fields p kind (A.fields_of key.now) tail.now result }
{
    let head = first_free(page);
    let next = next_of(page, head);
    let wasted = garbage(page);
    let at = write_over(page, head, start, fields, kind, key, tail);
    set_first_free(page, list_after(head, next));
    set_garbage(page, wasted - size);
    at
}

/// Whether the record at the free list's head is as long, and two bytes are left behind all
/// records.
fn fits_free(gaps: Gaps, size: u16) -> bool
    ensures { result ≡ (nat_le size gaps.head && nat_le 2 gaps.rest) }
{
    size <= gaps.head && 2 <= gaps.rest
}

/// Where the free list begins without its head, which leads to the next one, or to itself where
/// there is none.
fn list_after(head: u16, next: u16) -> u16
    ensures { result ≡ if nat_eq next head then 0 else next }
{
    if next == head { 0 } else { next }
}

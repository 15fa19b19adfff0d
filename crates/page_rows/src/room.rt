//! What a page is charged, and where it has bytes for a record.
ghost use Rattle.std.specs.Prelude.{◌≡◌, ◌+◌, ℕ};
ghost use Rattle.compact_record.specs.Bytes.{u16_at};
ghost use Rattle.index_page.specs.Loads.{load_of};
ghost use Rattle.page_rows.specs.Reading.{rows_in_bytes};
ghost use Rattle.page_rows.specs.Spelling.{IsPageOfRows};
ghost use Rattle.page_rows.specs.Inserting.{gaps_in_bytes, head_gap, head_start};

use compact_record::{Extent, measure};
use index_page::Gaps;
use page_mirror::{first_free, garbage, heap_top, row_count, slot_count};

/// Where the records of rows begin.
const FIRST_RECORD: u16 = 120;

/// Where the slots end.
const SLOTS_END: u16 = 16_376;

/// The gaps of a page, and where the record at the free list's head begins, 0 where there is none.
#[derive(Clone, Copy)]
pub(crate) struct Room {
    pub(crate) gaps: Gaps,
    pub(crate) start: u16,
}

/// What the rows are charged together.
pub fn page_load(page: &[u8]) -> u16
    requires { (fields : ℕ) × IsPageOfRows page.now fields }
    ensures { (fields : ℕ) → IsPageOfRows page.now fields
        → result ≡ load_of (rows_in_bytes page.now fields) }
{
    heap_top(page) - FIRST_RECORD - garbage(page) + row_count(page)
}

/// The gaps of the page.
pub fn page_gaps(page: &[u8], fields: u8) -> Gaps
    requires { IsPageOfRows page.now fields }
    ensures { result ≡ gaps_in_bytes page.now fields }
{
    page_room(page, fields).gaps
}

/// The gaps of the page, and where the record at the free list's head begins.
pub(crate) fn page_room(page: &[u8], fields: u8) -> Room
    requires { IsPageOfRows page.now fields }
    ensures gaps { result.gaps ≡ gaps_in_bytes page.now fields }
    ensures start { result.start ≡ head_start page.now fields (u16_at page.now 44) }
{
    let free = free_extent(page, first_free(page), fields);
    Room {
        gaps: Gaps {
            head: free.end - free.start,
            rest: page_rest(page),
        },
        start: free.start,
    }
}

/// How many bytes are left behind all records.
pub fn page_rest(page: &[u8]) -> u16
    requires { (fields : ℕ) × IsPageOfRows page.now fields }
    ensures { (fields : ℕ) → IsPageOfRows page.now fields
        → result ≡ (gaps_in_bytes page.now fields).rest }
{
    SLOTS_END - 2 * slot_count(page) - heap_top(page)
}

/// Where the record at the free list's head begins and ends, twice 0 where there is none.
fn free_extent(page: &[u8], at: u16, fields: u8) -> Extent
    requires page { IsPageOfRows page.now fields }
    requires head { (p : IsPageOfRows page.now fields) → at ≡ p.parts.mirror.free }
    ensures start { result.start ≡ head_start page.now fields at }
    ensures size { result.end ≡ result.start + head_gap page.now fields at }
{
    if at == 0 {
        return Extent { start: 0, end: 0 };
    }
    measure(page, at, fields)
}

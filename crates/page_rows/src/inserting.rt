//! A row that comes into a page.
ghost use Rattle.std.specs.Prelude.{◌≡◌, ◌≤◌, ◌<◌, List, ℕ};
ghost use Rattle.index_page.specs.Rows.{Row, placed_row};
ghost use Rattle.page_rows.specs.Reading.{body_of_kind};
ghost use Rattle.page_rows.specs.Inserting.{CanInsertRow, InsertsInBytes};

use crate::taking::take_room;
use compact_record::RecordKind;
use key_tuple::Fields;
use page_list::enter_list;

/// Puts a row in behind the one at the place `before`, where some gap takes its record of so many
/// bytes, and answers its place.
pub fn insert_row<A: Fields>(
    page: &mut [u8],
    fields: u8,
    before: u16,
    kind: RecordKind,
    key: &A,
    tail: &[u8],
    size: u16,
) -> u16
    requires { (below : List Row) × (above : List Row) × CanInsertRow page.old fields below above
        before kind (A.fields_of key.now) tail.now size }
    ensures { (below above : List Row) → CanInsertRow page.old fields below above
        before kind (A.fields_of key.now) tail.now size
        → InsertsInBytes page.old page.new fields below above
        (placed_row result (A.fields_of key.now) (body_of_kind kind tail.now)) }
{
    let at = take_room(page, fields, kind, key, tail, size);
    enter_list(page, before, at);
    at
}

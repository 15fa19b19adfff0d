//! A row that comes behind all others.
ghost use Rattle.std.specs.Prelude.{◌≡◌, ℕ};
ghost use Rattle.index_page.specs.Rows.{placed_row};
ghost use Rattle.page_rows.specs.Reading.{body_of_kind};
ghost use Rattle.page_rows.specs.Appending.{CanAppendRow, AppendsInBytes};

use compact_record::RecordKind;
use key_tuple::Fields;
use page_heap::write_behind;
use page_list::enter_list;

/// Puts a row in behind the last one, whose place is `before`, its record of so many bytes behind
/// all records, and answers its place.
pub fn append_row<A: Fields>(
    page: &mut [u8],
    before: u16,
    kind: RecordKind,
    key: &A,
    tail: &[u8],
    size: u16,
) -> u16
    requires { (fields : ℕ)
        × CanAppendRow page.old fields before kind (A.fields_of key.now) tail.now size }
    ensures { (fields : ℕ)
        → CanAppendRow page.old fields before kind (A.fields_of key.now) tail.now size
        → AppendsInBytes page.old page.new fields
        (placed_row result (A.fields_of key.now) (body_of_kind kind tail.now)) }
{
    let at = write_behind(page, kind, key, tail, size);
    enter_list(page, before, at);
    at
}

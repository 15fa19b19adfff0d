//! A row that gets another value of the same length.
ghost use Rattle.std.specs.Prelude.{◌≡◌, List, ℕ};
ghost use Rattle.index_page.specs.Rows.{Row};
ghost use Rattle.page_rows.specs.Setting.{CanSetValue, SetsInBytes};

use compact_record::{measure, put_bytes};

/// Writes a value into the row at a place, which is as long as the one before.
pub fn set_value(page: &mut [u8], fields: u8, place: u16, value: &[u8])
    requires { (left : List Row) × (row : Row) × (right : List Row)
        × CanSetValue page.old fields left row right place value.now }
    ensures { (left : List Row) (row : Row) (right : List Row)
        → CanSetValue page.old fields left row right place value.now
        → SetsInBytes page.old page.new fields left row right value.now }
{
    let end = usize::from(measure(page, place, fields).end);
    put_bytes(page, end - value.len(), value);
}

//! A record that is copied out of a page.
ghost use Rattle.std.specs.Prelude.{◌≡◌, ◌+◌, ◌≤◌, length};
ghost use Rattle.compact_record.specs.Record.{finish};
ghost use Rattle.compact_record.specs.Copying.{placed_from};
ghost use Rattle.compact_record.specs.Reading.{record_at, HasRecord};

use crate::MAX_PAGE_BYTES;
use crate::bytes::{get_bytes, put_bytes};
use crate::reading::measure;

/// Copies the record at a place to the first of other bytes, and answers its place there. So its
/// key can be read while the page changes.
pub fn copy_record(page: &[u8], place: u16, fields: u8, to: &mut [u8]) -> u16
    requires page { length page.now ≤ MAX_PAGE_BYTES }
    requires there { HasRecord page.now place fields }
    requires room { finish (record_at page.now place fields)
        ≤ (record_at page.now place fields).start + length to.old }
    ensures there { HasRecord to.new result fields }
    ensures same { record_at to.new result fields
        ≡ placed_from 0 (record_at page.now place fields) }
{
    let extent = measure(page, place, fields);
    let size = usize::from(extent.end - extent.start);
    put_bytes(to, 0, get_bytes(page, usize::from(extent.start), size));
    place - extent.start
}

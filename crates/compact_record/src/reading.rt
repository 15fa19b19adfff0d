//! Where the parts of a record stand.
ghost use Rattle.std.specs.Prelude.{◌≡◌, ◌≤◌, ◌<◌, [], length, slice_index_or};
ghost use Rattle.compact_record.specs.Record.{finish, parts_of, measured_parts};
ghost use Rattle.compact_record.specs.Reading.{record_at, kind_in, HasRecord, IsPart};

use crate::bytes::{get_bytes, get_u16};
use crate::kind::RecordKind;
use crate::lengths::{get_length, length_size};
use crate::{CHILD_BYTES, HEAD_BYTES, MAX_PAGE_BYTES};

/// Where a record begins and ends.
#[derive(Clone, Copy)]
pub struct Extent {
    /// Its first byte.
    pub start: u16,
    /// The first byte behind it.
    pub end: u16,
}

/// Where a part of a record stands: a field of its key, or its tail.
#[derive(Clone, Copy)]
pub(crate) struct Part {
    /// Where its length ends, if it has one.
    pub(crate) top: usize,
    /// Where its bytes begin.
    pub(crate) from: usize,
}

/// Where the record at a place begins and ends.
pub fn measure(page: &[u8], place: u16, fields: u8) -> Extent
    requires page { length page.now ≤ MAX_PAGE_BYTES }
    requires there { HasRecord page.now place fields }
    ensures start { result.start ≡ (record_at page.now place fields).start }
    ensures end { result.end ≡ finish (record_at page.now place fields) }
{
    let tail = part_at(page, place, fields, fields);
    match kind_at(page, place) {
        RecordKind::Row => {
            let len = get_length(page, tail.top);
            Extent {
                start: (tail.top - length_size(len)) as u16,
                end: (tail.from + len) as u16,
            }
        }
        RecordKind::Pointer | RecordKind::LeftmostPointer => Extent {
            start: tail.top as u16,
            end: (tail.from + CHILD_BYTES) as u16,
        },
    }
}

/// The kind of the record at a place.
pub(crate) fn kind_at(page: &[u8], place: u16) -> RecordKind
    requires low { HEAD_BYTES ≤ place }
    requires high { place ≤ length page.now }
    ensures { result ≡ kind_in page.now place }
{
    let place = usize::from(place);
    RecordKind::with(get_u16(page, place - 4) % 8, page[place - HEAD_BYTES] / 16)
}

/// Where the part with that number stands in the record at a place.
pub(crate) fn part_at(page: &[u8], place: u16, fields: u8, number: u8) -> Part
    requires there { HasRecord page.now place fields }
    requires number { number ≤ fields }
    ensures { IsPart (record_at page.now place fields) number result }
{
    let mut part = Part {
        top: usize::from(place) - HEAD_BYTES,
        from: usize::from(place),
    };
    for _ in 0..number {
        let len = get_length(page, part.top);
        part = Part {
            top: part.top - length_size(len),
            from: part.from + len,
        };
    }
    part
}

/// The bytes of the part with that number, if its length is written.
pub(crate) fn measured_part(page: &[u8], place: u16, fields: u8, number: u8) -> &[u8]
    requires there { HasRecord page.now place fields }
    requires number { number ≤ fields }
    requires measured { number < length (measured_parts (record_at page.now place fields)) }
    ensures { result.now ≡ slice_index_or (parts_of (record_at page.now place fields)) number [] }
{
    let part = part_at(page, place, fields, number);
    let len = get_length(page, part.top);
    get_bytes(page, part.from, len)
}

//! Records written behind all others, and in place of one.
ghost use Rattle.std.specs.Prelude.{◌≡◌, ◌+◌, ◌≤◌, ◌<◌, ℕ, length};
ghost use Rattle.compact_record.specs.Bytes.{u16_at, SameOutside};
ghost use Rattle.compact_record.specs.Record.{PlacedRecord, record_size_of};
ghost use Rattle.page_mirror.specs.Mirror.{Mirror};
ghost use Rattle.page_mirror.specs.Steps.{HasOrigin};
ghost use Rattle.page_heap.specs.Heap.{cell_of, record_from, enlarged, rewritten, FitsBehind, FitsInPlace};

use compact_record::{RecordHead, RecordKind, put_u16, view, write};
use key_tuple::Fields;
use page_mirror::{heap_count, heap_top};

const HEAP_TOP: usize = 40;

const N_HEAP: usize = 42;

/// Writes a record behind all others, under a new heap number, and answers its origin.
pub fn write_behind<A: Fields>(
    page: &mut [u8],
    kind: RecordKind,
    key: &A,
    tail: &[u8],
    size: u16,
) -> u16
    requires size { size ≡ record_size_of kind (A.fields_of key.now) tail.now }
    requires there { (m : Mirror) × FitsBehind page.old m
        (record_from m.top m.count kind (A.fields_of key.now) tail.now) }
    ensures { (m : Mirror) → FitsBehind page.old m
        (record_from m.top m.count kind (A.fields_of key.now) tail.now)
        → HasOrigin page.new (enlarged m
        (cell_of (record_from m.top m.count kind (A.fields_of key.now) tail.now))) m.count result }
{
    let top = heap_top(page);
    let heap_number = heap_count(page);
    let place = write(page, top, RecordHead { kind, heap_number }, key, tail);
    put_heap_end(page, top + size, heap_number + 1);
    place
}

/// Writes a record where the one with this origin begins, at `start`, under its heap number, and
/// answers the new one's origin. Who has measured that one knows where it begins.
pub fn write_over<A: Fields>(
    page: &mut [u8],
    at: u16,
    start: u16,
    fields: u8,
    kind: RecordKind,
    key: &A,
    tail: &[u8],
) -> u16
    requires { (m : Mirror) × (h : ℕ) × (old : PlacedRecord) × HasOrigin page.old m h at
        × FitsInPlace page.old m fields h old
        (record_from start h kind (A.fields_of key.now) tail.now) }
    ensures { (m : Mirror) (h : ℕ) (old : PlacedRecord) → HasOrigin page.old m h at
        → FitsInPlace page.old m fields h old
        (record_from start h kind (A.fields_of key.now) tail.now)
        → HasOrigin page.new (rewritten m h
        (cell_of (record_from start h kind (A.fields_of key.now) tail.now))) h result }
{
    let heap_number = view(page, at, fields).heap_number();
    write(page, start, RecordHead { kind, heap_number }, key, tail)
}

/// Writes where the records end, and how many heap numbers are given out.
fn put_heap_end(page: &mut [u8], top: u16, count: u16)
    requires page { length page.old ≡ 16384 }
    requires small { count < 32768 }
    ensures top { u16_at page.new 40 ≡ top }
    ensures count { u16_at page.new 42 ≡ 32768 + count }
    ensures kept { SameOutside page.old page.new 40 44 }
{
    put_u16(page, HEAP_TOP, top);
    put_u16(page, N_HEAP, 32768 + count);
}

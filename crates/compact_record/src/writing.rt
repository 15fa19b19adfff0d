//! A record written into a page.
ghost use Rattle.std.specs.Prelude.{◌≡◌, ◌+◌, ◌*◌, ◌/◌, ◌%◌, ◌<◌, ◌≤◌, [], length, slice_index};
ghost use Rattle.std.specs.List.{concat};
ghost use Rattle.compact_record.specs.Bytes.{u16_at, SameOutside, PutsPart};
ghost use Rattle.compact_record.specs.Kind.{status_bits, info_bits, measured};
ghost use Rattle.compact_record.specs.Record.{lengths_bytes, placed, origin, finish, IsRecord, WritesRecord};

use crate::bytes::{put_bytes, put_u16};
use crate::kind::RecordKind;
use crate::lengths::{put_key_lengths, put_length};
use crate::{HEAD_BYTES, HEAP_NUMBERS, LENGTH_LIMIT, MAX_PAGE_BYTES};
use key_tuple::Fields;

/// What the head of a record says.
#[derive(Clone, Copy)]
pub struct RecordHead {
    /// What the record is.
    pub kind: RecordKind,
    /// Its number among the records of its page.
    pub heap_number: u16,
}

/// Writes a record from `start` on, and answers its place. It owns no record yet, and leads to
/// none.
pub fn write<A: Fields>(page: &mut [u8], start: u16, head: RecordHead, key: &A, tail: &[u8]) -> u16
    requires record { IsRecord (placed start head (A.fields_of key.now) tail.now) }
    requires room { finish (placed start head (A.fields_of key.now) tail.now) ≤ length page.old }
    requires page { length page.old ≤ MAX_PAGE_BYTES }
    ensures place { result ≡ origin (placed start head (A.fields_of key.now) tail.now) }
    ensures writes { WritesRecord page.old page.new
        (placed start head (A.fields_of key.now) tail.now) }
{
    let key_start = put_tail_length(page, usize::from(start), head.kind, tail);
    let top = put_key_lengths(page, key_start, key);
    let place = put_head(page, top, head);
    let tail_start = put_fields(page, place, key);
    put_bytes(page, tail_start, tail);
    place as u16
}

/// Writes the length of a tail where it has one, and answers where it ends.
fn put_tail_length(page: &mut [u8], at: usize, kind: RecordKind, tail: &[u8]) -> usize
    requires room { at + length (lengths_bytes (measured kind [] tail.now)) ≤ length page.old }
    requires small { length tail.now < LENGTH_LIMIT }
    ensures { PutsPart page.old page.new (lengths_bytes (measured kind [] tail.now)) at result }
{
    match kind {
        RecordKind::Row => put_length(page, at, tail.len()),
        RecordKind::Pointer | RecordKind::LeftmostPointer => at,
    }
}

/// Writes the bytes between the lengths and the key, and answers where they end.
fn put_head(page: &mut [u8], at: usize, head: RecordHead) -> usize
    requires room { at + HEAD_BYTES ≤ length page.old }
    requires number { head.heap_number < HEAP_NUMBERS }
    ensures end { result ≡ at + HEAD_BYTES }
    ensures info { slice_index page.new at / 16 ≡ info_bits head.kind }
    ensures owned { slice_index page.new at % 16 ≡ 0 }
    ensures number { u16_at page.new (at + 1) ≡ head.heap_number * 8 + status_bits head.kind }
    ensures next { u16_at page.new (at + 3) ≡ 0 }
    ensures kept { SameOutside page.old page.new at result }
{
    page[at] = 16 * head.kind.info();
    put_u16(page, at + 1, head.heap_number * 8 + head.kind.status());
    put_u16(page, at + 3, 0);
    at + HEAD_BYTES
}

/// Writes the key's fields one after another, and answers where they end.
fn put_fields<A: Fields>(page: &mut [u8], start: usize, key: &A) -> usize
    requires room { start + length (concat (A.fields_of key.now)) ≤ length page.old }
    ensures { PutsPart page.old page.new (concat (A.fields_of key.now)) start result }
{
    let mut at = start;
    for i in 0..key.count() {
        let field = key.field(i);
        put_bytes(page, at, field);
        at += field.len();
    }
    at
}

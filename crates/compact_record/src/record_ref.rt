//! A record of a page, lent.
ghost use Rattle.std.specs.Prelude.{◌≡◌, ◌≢◌, length};
ghost use Rattle.compact_record.specs.declared.kind.RecordKind.TheVariants as kinds;
ghost use Rattle.compact_record.specs.Reading.{record_at, HasRecord, child_of};

use crate::CHILD_BYTES;
use crate::bytes::{get_bytes, get_u16};
use crate::kind::RecordKind;
use crate::reading::{kind_at, measured_part, part_at};
use byteorder::{BigEndian, ByteOrder};
use key_tuple::Fields;
use std::marker::Model;

/// A record where it stands in a page. Its fields are those of its key, lent from the page.
#[derive(Drop)]
pub struct RecordRef<'a> {
    page: &'a [u8],
    place: u16,
    fields: u8,
}

impl<'a> Model for RecordRef<'a> {
    ghost use Rattle.compact_record.specs.Record.{PlacedRecord};
    ghost use Rattle.compact_record.specs.Reading.{record_at, HasRecord};

    ghost Value = { PlacedRecord };

    ghost view = { λ r. record_at r.page.now r.place r.fields };

    ghost invariant = { λ r. HasRecord r.page.now r.place r.fields };
}

/// The record at a place, with so many key fields. Nothing is copied.
pub fn view(page: &[u8], place: u16, fields: u8) -> RecordRef<'_>
    requires { HasRecord page.now place fields }
    ensures { result ≡ record_at page.now place fields }
{
    RecordRef {
        page,
        place,
        fields,
    }
}

impl<'a> RecordRef<'a> {
    /// What the record is.
    pub fn kind(&self) -> RecordKind
        ensures { result ≡ self.now.kind }
    {
        kind_at(self.page, self.place)
    }

    /// Its number among the records of its page.
    pub fn heap_number(&self) -> u16
        ensures { result ≡ self.now.heap_number }
    {
        get_u16(self.page, usize::from(self.place) - 4) / 8
    }

    /// What comes after the key: a value's bytes, or those of a child's number.
    pub fn tail(&self) -> &[u8]
        ensures tail { result.now ≡ self.now.tail }
        ensures child { self.now.kind ≢ kinds.Row → length result.now ≡ CHILD_BYTES }
    {
        match self.kind() {
            RecordKind::Row => measured_part(self.page, self.place, self.fields, self.fields),
            RecordKind::Pointer | RecordKind::LeftmostPointer => {
                let tail = part_at(self.page, self.place, self.fields, self.fields);
                get_bytes(self.page, tail.from, CHILD_BYTES)
            }
        }
    }

    /// The child page's number. Only pointers have one.
    pub fn child(&self) -> u32
        requires { self.now.kind ≢ kinds.Row }
        ensures { result ≡ child_of self.now.tail }
    {
        BigEndian::read_u32(self.tail())
    }
}

impl<'a> Fields for RecordRef<'a> {
    ghost fields_of = { λ r. r.key };

    fn count(&self) -> u8 {
        self.fields
    }

    fn field(&self, i: u8) -> &[u8] {
        measured_part(self.page, self.place, self.fields, i)
    }
}

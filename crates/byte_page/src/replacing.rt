//! Rows that go and come again with another value.
ghost use Rattle.std.specs.Prelude.{◌≡◌, length, Some, None, IsSome, false};
ghost use Rattle.compact_record.specs.Reading.{record_at, HasRecord};
ghost use Rattle.index_page.specs.Rows.{Row, find_row};
ghost use Rattle.index_page.specs.Refusals.{is_as_long};
ghost use Rattle.byte_page.specs.Setting.{gap_refusal_to_set, SetsAgain};

use crate::page::BytePage;
use compact_record::{RecordKind, copy_record, view};
use index_page::{Body, Place, charge};
use key_tuple::{Fields, Value};

/// The bytes of the longest record.
const RECORD_BYTES: usize = 2_830;

impl BytePage {
    /// Gives the row at a place a value of another length, which isn't refused. Its key is kept
    /// beside the page in the meantime.
    pub(crate) fn replace(&mut self, place: Place, value: &Value) -> Place
        requires there { IsSome (find_row place self.old.page.rows) }
        requires level { self.old.page.head.level ≡ 0 }
        requires room { gap_refusal_to_set self.old place value.now ≡ None }
        requires other { (row : Row) → find_row place self.old.page.rows ≡ Some row
            → is_as_long value.now row.body ≡ false }
        ensures { SetsAgain self.old.page self.new.page place result value.now }
    {
        let mut record = [0; RECORD_BYTES];
        let at = self.copy_row(place, &mut record);
        let key = view(&record, at, self.fields);
        self.put_value(place, &key, value)
    }

    /// Copies the record of the row at a place, and answers where its key begins there.
    fn copy_row(&self, place: Place, to: &mut [u8]) -> u16
        requires there { IsSome (find_row place self.now.page.rows) }
        requires room { length to.old ≡ RECORD_BYTES }
        ensures there { HasRecord to.new result self.now.page.head.fields }
        ensures key { (row : Row) → find_row place self.now.page.rows ≡ Some row
            → (record_at to.new result self.now.page.head.fields).key ≡ row.key }
    {
        copy_record(&self.bytes, place, self.fields, to)
    }

    /// The same with the row's key.
    fn put_value<A: Fields>(&mut self, place: Place, key: &A, value: &Value) -> Place
        requires there { IsSome (find_row place self.old.page.rows) }
        requires level { self.old.page.head.level ≡ 0 }
        requires room { gap_refusal_to_set self.old place value.now ≡ None }
        requires other { (row : Row) → find_row place self.old.page.rows ≡ Some row
            → is_as_long value.now row.body ≡ false }
        requires key { (row : Row) → find_row place self.old.page.rows ≡ Some row
            → row.key ≡ A.fields_of key.now }
        ensures { SetsAgain self.old.page self.new.page place result value.now }
    {
        self.is_in_order();
        self.delete(place);
        let size = charge(key, Body::Value(value)) - 1;
        let other = self.put_in(RecordKind::Row, key, value.as_bytes(), size);
        self.is_in_order();
        other
    }
}

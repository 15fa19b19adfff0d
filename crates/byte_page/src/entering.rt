//! Records of rows that come, where there is room for them.
ghost use Rattle.std.specs.Prelude.{◌≡◌, ◌+◌, ◌≤◌, length, true};
ghost use Rattle.key_tuple.specs.KeyPlace.{not_below};
ghost use Rattle.key_tuple.specs.Limits.{IsWithinLimits};
ghost use Rattle.compact_record.specs.Kind.{status_bits};
ghost use Rattle.compact_record.specs.Record.{record_size_of};
ghost use Rattle.index_page.specs.declared.TheConstants.{PAGE_ROOM};
ghost use Rattle.index_page.specs.Rows.{placed_row, LacksKey};
ghost use Rattle.index_page.specs.Page.{FitsLevel, HasShortValue};
ghost use Rattle.index_page.specs.Changes.{Inserts};
ghost use Rattle.index_page.specs.Loads.{load_of};
ghost use Rattle.index_page.specs.Refusals.{takes};
ghost use Rattle.page_rows.specs.Reading.{body_of_kind};
ghost use Rattle.page_search.specs.Cuts.{CutsRows};

use crate::page::BytePage;
use compact_record::RecordKind;
use index_page::Place;
use key_tuple::{Fields, Mode};
use page_rows::insert_row;
use page_search::find_cut;

impl BytePage {
    /// Puts a record of a kind in, where there is room for so many bytes.
    pub(crate) fn put_in<A: Fields>(
        &mut self,
        kind: RecordKind,
        key: &A,
        tail: &[u8],
        size: u16,
    ) -> Place
        requires fields { length (A.fields_of key.now) ≡ self.old.page.head.fields }
        requires limits { IsWithinLimits (A.fields_of key.now) }
        requires absent { LacksKey (A.fields_of key.now) self.old.page.rows }
        requires body { FitsLevel self.old.page.head.level (body_of_kind kind tail.now) }
        requires short { length tail.now ≤ 2048 }
        requires value { HasShortValue (body_of_kind kind tail.now) }
        requires child { status_bits kind ≡ 1 → length tail.now ≡ 4 }
        requires size { size ≡ record_size_of kind (A.fields_of key.now) tail.now }
        requires room { load_of self.old.page.rows + size + 1 ≤ PAGE_ROOM }
        requires gap { takes self.old.gaps size ≡ true }
        ensures { Inserts self.old.page self.new.page
            (placed_row result (A.fields_of key.now) (body_of_kind kind tail.now)) }
    {
        let before = self.place_below(key);
        self.enter(before, kind, key, tail, size)
    }

    /// The same behind the last row below the key, whose place is `before`.
    pub(crate) fn enter<A: Fields>(
        &mut self,
        before: Place,
        kind: RecordKind,
        key: &A,
        tail: &[u8],
        size: u16,
    ) -> Place
        requires before { CutsRows self.old.page.rows (not_below (A.fields_of key.now)) before }
        requires fields { length (A.fields_of key.now) ≡ self.old.page.head.fields }
        requires limits { IsWithinLimits (A.fields_of key.now) }
        requires absent { LacksKey (A.fields_of key.now) self.old.page.rows }
        requires body { FitsLevel self.old.page.head.level (body_of_kind kind tail.now) }
        requires short { length tail.now ≤ 2048 }
        requires value { HasShortValue (body_of_kind kind tail.now) }
        requires child { status_bits kind ≡ 1 → length tail.now ≡ 4 }
        requires size { size ≡ record_size_of kind (A.fields_of key.now) tail.now }
        requires room { load_of self.old.page.rows + size + 1 ≤ PAGE_ROOM }
        requires gap { takes self.old.gaps size ≡ true }
        ensures { Inserts self.old.page self.new.page
            (placed_row result (A.fields_of key.now) (body_of_kind kind tail.now)) }
    {
        insert_row(&mut self.bytes, self.fields, before, kind, key, tail, size)
    }

    /// The place of the last row below a key, or that of infimum.
    pub(crate) fn place_below<A: Fields>(&self, key: &A) -> Place
        requires { length (A.fields_of key.now) ≤ self.now.page.head.fields }
        ensures { CutsRows self.now.page.rows (not_below (A.fields_of key.now)) result }
    {
        find_cut(&self.bytes, self.fields, key, Mode::Ge).before
    }
}

//! A row of a page, lent.
ghost use Rattle.std.specs.Prelude.{◌≡◌, ◌≢◌, ◌≤◌, length};
ghost use Rattle.key_tuple.specs.declared.TheConstants.{MAX_VALUE_BYTES};
ghost use Rattle.index_page.specs.Rows.{Bytes, Child, placed_row};
ghost use Rattle.index_page.specs.Page.{FitsLevel, HasShortValue};

use crate::record::Record;
use crate::spot::Place;
use key_tuple::Fields;
use std::marker::Model;

/// A row of a page, seen as the row and the level of its page. Its fields are those of its key.
#[derive(Drop)]
pub struct RowRef<'a> {
    record: Record<'a>,
    place: Place,
    level: u16,
}

impl<'a> Model for RowRef<'a> {
    ghost use Rattle.index_page.specs.Rows.{placed_row};
    ghost use Rattle.index_page.specs.Page.{LevelRow, FitsLevel, HasShortValue};

    ghost Value = { LevelRow };

    ghost view = { λ r. record {
      level = r.level;
      row = placed_row r.place r.record.key r.record.body;
    } };

    ghost invariant = { λ r.
        FitsLevel r.level r.record.body × HasShortValue r.record.body };
}

impl<'a> RowRef<'a> {
    pub(crate) fn new(stored: Record<'a>, place: Place, level: u16) -> RowRef<'a>
        requires level { FitsLevel level stored.body }
        requires short { HasShortValue stored.body }
        ensures level { result.level ≡ level }
        ensures row { result.row ≡ placed_row place stored.entry.key stored.entry.body }
    {
        RowRef {
            record: stored,
            place,
            level,
        }
    }

    /// The value's bytes. Only a page of level 0 has values.
    pub fn value(&self) -> &[u8]
        requires { self.now.level ≡ 0 }
        ensures bytes { self.now.row.body ≡ Bytes result.now }
        ensures short { length result.now ≤ MAX_VALUE_BYTES }
    {
        self.record.value()
    }

    /// The child's number. Only a page of a level above 0 has children.
    pub fn child(&self) -> u32
        requires { self.now.level ≢ 0 }
        ensures { self.now.row.body ≡ Child result }
    {
        self.record.child()
    }
}

impl<'a> Fields for RowRef<'a> {
    ghost fields_of = { λ r. r.row.key };

    fn count(&self) -> u8 {
        self.record.count()
    }

    fn field(&self, i: u8) -> &[u8] {
        self.record.field(i)
    }
}

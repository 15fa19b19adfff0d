//! Rows that go.
ghost use Rattle.std.specs.Prelude.{◌≡◌, Some, IsSome};
ghost use Rattle.index_page.specs.Rows.{Row, find_row};
ghost use Rattle.index_page.specs.Changes.{Deletes};
ghost use Rattle.byte_page.specs.Setting.{gaps_less};

use crate::page::BytePage;
use index_page::{Gaps, Place};
use page_rows::{delete_row, gaps_without};

impl BytePage {
    /// Takes the row at a place out. The bytes of its record are the gap that the next row that is
    /// no longer gets.
    pub fn delete(&mut self, place: Place)
        requires { IsSome (find_row place self.old.page.rows) }
        ensures rows { Deletes self.old.page self.new.page place }
        ensures gaps { (row : Row) → find_row place self.old.page.rows ≡ Some row
            → self.new.gaps ≡ gaps_less self.old row }
    {
        delete_row(&mut self.bytes, self.fields, place);
    }

    /// The gaps that the page has once the row at a place is gone.
    pub fn gaps_without(&self, place: Place) -> Gaps
        requires { IsSome (find_row place self.now.page.rows) }
        ensures { (row : Row) → find_row place self.now.page.rows ≡ Some row
            → result ≡ gaps_less self.now row }
    {
        gaps_without(&self.bytes, self.fields, place)
    }
}

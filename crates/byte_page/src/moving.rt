//! Rows that move from page to page.
ghost use Rattle.std.specs.Prelude.{◌≡◌, ◌+◌, ◌<◌, ◌≤◌, List, [], ◌∷◌, ◌++◌, ◌↔◌, length, IsTrue, IsSome};
ghost use Rattle.index_page.specs.declared.TheConstants.{PAGE_ROOM};
ghost use Rattle.index_page.specs.Rows.{Row, find_row};
ghost use Rattle.index_page.specs.Page.{RowsAscend};
ghost use Rattle.index_page.specs.Moves.{MovesTail};
ghost use Rattle.index_page.specs.Loads.{load_of};
ghost use Rattle.byte_page.specs.Moving.{StaysUnless, MovesAllTo, PopsRow, KeepsFirst};

use crate::copy::ByteCopy;
use crate::page::BytePage;
use index_page::Place;

impl BytePage {
    /// Moves the rows from the one at `first` on to a page that has none. It takes no memory.
    pub fn move_tail(&mut self, first: Place, to: &mut BytePage)
        requires first { IsSome (find_row first self.old.page.rows) }
        requires empty { to.old.page.rows ≡ [] }
        requires level { to.old.page.head.level ≡ self.old.page.head.level }
        requires fields { to.old.page.head.fields ≡ self.old.page.head.fields }
        ensures moves { MovesTail self.old.page self.new.page to.old.page to.new.page first }
        ensures garbage { to.new.garbage ≡ 0 }
    {
        self.is_in_order();
        to.clear();
        to.append_rows(self, Some(first));
        self.delete_from(first);
    }

    /// Takes the rows from the one at `first` on out.
    fn delete_from(&mut self, first: Place)
        requires { (left : List Row) × (row : Row) × (right : List Row)
            × (self.old.page.rows ≡ left ++ row ∷ right) × (row.place ≡ first) }
        ensures { (left : List Row) (row : Row) (right : List Row)
            → self.old.page.rows ≡ left ++ row ∷ right → row.place ≡ first
            → KeepsFirst self.old.page self.new.page left }
    {
        for _ in 0..self.count() {
            if self.pop() == first {
                return;
            }
        }
    }

    /// Takes the last row out, and tells its place.
    fn pop(&mut self) -> Place
        requires { 0 < length self.old.page.rows }
        ensures { PopsRow self.old.page self.new.page result }
    {
        self.is_in_order();
        let last = self.last_or_infimum();
        self.delete(last);
        last
    }

    /// Moves all rows behind those of another page, and tells whether these got new places before:
    /// they do where some bytes of their page are in no use. It takes no memory.
    pub fn move_all(&mut self, to: &mut BytePage, copy: &mut ByteCopy) -> bool
        requires level { to.old.page.head.level ≡ self.old.page.head.level }
        requires fields { to.old.page.head.fields ≡ self.old.page.head.fields }
        requires ascend { RowsAscend (to.old.page.rows ++ self.old.page.rows) }
        requires fits { load_of to.old.page.rows + load_of self.old.page.rows ≤ PAGE_ROOM }
        ensures moves { MovesAllTo result self.old.page self.new.page to.old.page to.new.page }
        ensures told { IsTrue result ↔ (0 < to.old.garbage) }
        ensures garbage { to.new.garbage ≡ 0 }
    {
        let again = to.use_all(copy);
        to.append_rows(self, self.first());
        self.clear();
        again
    }

    /// Gives the rows new places where some bytes are in no use, and tells whether it did.
    fn use_all(&mut self, copy: &mut ByteCopy) -> bool
        ensures stays { StaysUnless result self.old.page self.new.page }
        ensures told { IsTrue result ↔ (0 < self.old.garbage) }
        ensures garbage { self.new.garbage ≡ 0 }
    {
        if self.garbage() == 0 {
            return false;
        }
        self.reorganise(copy);
        true
    }
}

//! Rows that move from page to page.
ghost use Rattle.std.specs.Prelude.{◌≡◌, ◌+◌, ◌≤◌, [], ◌++◌, None, OnOk, OnErr, IsSome};
ghost use Rattle.index_page.specs.Rows.{find_row};
ghost use Rattle.index_page.specs.declared.TheConstants.{PAGE_ROOM};
ghost use Rattle.index_page.specs.Page.{RowsAscend};
ghost use Rattle.index_page.specs.Loads.{load_of};
ghost use Rattle.index_page.specs.Moves.{MovesTail, MovesAll, Reorganises};

use crate::copy::PageCopy;
use crate::page::Page;
use crate::spot::Place;
use key_tuple::NoMemory;

impl Page {
    /// Moves the rows from the one at `first` on to a page that has none. After `NoMemory` both
    /// pages are as before.
    pub fn move_tail(&mut self, first: Place, to: &mut Page) -> Result<(), NoMemory>
        requires first { IsSome (find_row first self.old.rows) }
        requires empty { to.old.rows ≡ [] }
        requires level { to.old.head.level ≡ self.old.head.level }
        requires fields { to.old.head.fields ≡ self.old.head.fields }
        ensures ok { OnOk result (MovesTail self.old self.new to.old to.new first) }
        ensures err { OnErr result (self.new ≡ self.old) }
        ensures to_err { OnErr result (to.new ≡ to.old) }
    {
        let at = self.position(first);
        let tail = self.rows.tail(at)?;
        let load = self.load_of_first(at);
        self.rows.keep_first(at);
        to.rows = tail;
        (to.load, self.load) = (self.load - load, load);
        Ok(())
    }

    /// Moves all rows behind those of another page. After `NoMemory` both pages are as before.
    pub fn move_all(&mut self, to: &mut Page) -> Result<(), NoMemory>
        requires level { to.old.head.level ≡ self.old.head.level }
        requires fields { to.old.head.fields ≡ self.old.head.fields }
        requires ascend { RowsAscend (to.old.rows ++ self.old.rows) }
        requires fits { load_of to.old.rows + load_of self.old.rows ≤ PAGE_ROOM }
        ensures ok { OnOk result (MovesAll self.old self.new to.old to.new) }
        ensures err { OnErr result (self.new ≡ self.old) }
        ensures to_err { OnErr result (to.new ≡ to.old) }
    {
        to.rows.append(&self.rows, 0)?;
        to.load += self.load;
        self.rows.clear();
        self.load = 0;
        Ok(())
    }

    /// Gives the rows new places, and takes what is kept in `copy`. After `NoMemory` the page is as
    /// before.
    pub fn reorganise(&mut self, copy: &mut PageCopy) -> Result<(), NoMemory>
        ensures ok { OnOk result (Reorganises self.old self.new) }
        ensures err { OnErr result (self.new ≡ self.old) }
        ensures copy { copy.new ≡ None }
    {
        copy.forget();
        let rows = self.rows.tail(0)?;
        self.rows = rows;
        Ok(())
    }
}

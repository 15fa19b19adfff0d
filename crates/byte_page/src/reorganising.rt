//! Rows that get new places, one behind the other.
ghost use Rattle.std.specs.Prelude.{◌≡◌, None, []};
ghost use Rattle.index_page.specs.Moves.{Reorganises};
ghost use Rattle.byte_page.specs.Moving.{TakesWhatFits};

use crate::copy::ByteCopy;
use crate::page::BytePage;
use page_mirror::write_empty;

impl BytePage {
    /// Gives the rows new places, so that no bytes are in no use, and takes what is kept in `copy`.
    /// It takes no memory.
    pub fn reorganise(&mut self, copy: &mut ByteCopy)
        ensures page { Reorganises self.old.page self.new.page }
        ensures garbage { self.new.garbage ≡ 0 }
        ensures gaps { TakesWhatFits self.new }
        ensures copy { copy.new ≡ None }
    {
        self.is_in_order();
        copy.saved = false;
        copy.page.copy_from(self);
        self.clear();
        self.append_rows(&copy.page, copy.page.first());
        self.takes_what_fits();
    }

    /// Where no bytes are in no use, no row that has room is scattered.
    pub fn takes_what_fits(&self)
        requires { self.now.garbage ≡ 0 }
        ensures { TakesWhatFits self.now }
    {
        let _ = &self.fields;
    }

    /// Takes all rows out.
    pub(crate) fn clear(&mut self)
        ensures rows { self.new.page.rows ≡ [] }
        ensures head { self.new.page.head ≡ self.old.page.head }
        ensures garbage { self.new.garbage ≡ 0 }
    {
        write_empty(&mut self.bytes);
    }
}

//! A page.
ghost use Rattle.std.specs.Prelude.{◌≡◌, [], length, Some, IfOk, IsSome};
ghost use Rattle.index_page.specs.Rows.{find_row};
ghost use Rattle.index_page.specs.Page.{IsNeighbour, linked, IsRowOf, IsPageInOrder};
ghost use Rattle.index_page.specs.Loads.{load_of};

use crate::head::PageHead;
use crate::heap::Heap;
use crate::row_ref::RowRef;
use crate::spot::Place;
use key_tuple::NoMemory;
use std::alloc::Global;
use std::marker::Model;

/// A page of an index, seen as its head and its rows by ascending keys, each at a place that stays
/// until the row is deleted.
pub struct Page {
    pub(crate) head: PageHead,
    pub(crate) rows: Heap,
    /// What the rows are charged together.
    pub(crate) load: u16,
    ghost charged: { load ≡ load_of rows },
}

// Written out, so that a crate above drops it by one call.
impl Drop for Page {
    fn drop(self) {
        let Self {
            head: _,
            rows: _,
            load: _,
        } = self;
    }
}

impl Model for Page {
    ghost use Rattle.index_page.specs.Page.{PageRows, IsPageInOrder};

    ghost Value = { PageRows };

    ghost view = { λ p. record { head = p.head; rows = p.rows } };

    ghost invariant = { λ p. IsPageInOrder (record { head = p.head; rows = p.rows }) };
}

impl Page {
    /// A page with no rows.
    pub fn empty(alloc: Global, head: PageHead) -> Result<Page, NoMemory>
        requires prev { IsNeighbour head.prev }
        requires next { IsNeighbour head.next }
        ensures head { IfOk result (λ page. page.head ≡ head) }
        ensures rows { IfOk result (λ page. page.rows ≡ []) }
    {
        Ok(Page {
            head,
            rows: Heap::new(alloc),
            load: 0,
        })
    }

    /// Takes all rows out and gives the page another head.
    pub fn restart(&mut self, head: PageHead)
        requires prev { IsNeighbour head.prev }
        requires next { IsNeighbour head.next }
        ensures head { self.new.head ≡ head }
        ensures rows { self.new.rows ≡ [] }
    {
        self.rows.clear();
        self.load = 0;
        self.head = head;
    }

    /// What the page is beside its rows.
    pub fn head(&self) -> &PageHead
        ensures { result.now ≡ self.now.head }
    {
        &self.head
    }

    /// Gives the page other neighbours.
    pub fn link(&mut self, prev: Option<u32>, next: Option<u32>)
        requires prev { IsNeighbour prev }
        requires next { IsNeighbour next }
        ensures head { self.new.head ≡ linked self.old.head prev next }
        ensures rows { self.new.rows ≡ self.old.rows }
    {
        self.head.prev = prev;
        self.head.next = next;
    }

    /// How many rows there are.
    pub fn count(&self) -> u16
        ensures { result ≡ length self.now.rows }
    {
        self.rows.len() as u16
    }

    /// The page is in order.
    pub fn is_in_order(&self)
        ensures { IsPageInOrder self.now }
    {
        let _ = &self.head;
    }

    /// The row at a place. A spot, `next`, `prev` and `insert` tell places at which rows stand.
    pub fn row(&self, place: Place) -> RowRef<'_>
        requires { IsSome (find_row place self.now.rows) }
        ensures row { find_row place self.now.rows ≡ Some result.row }
        ensures level { result.level ≡ self.now.head.level }
        ensures suits { IsRowOf self.now.head result.row }
    {
        RowRef::new(self.rows.record(place), place, self.head.level)
    }
}

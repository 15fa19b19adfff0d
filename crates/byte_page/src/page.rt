//! A page in bytes.
ghost use Rattle.std.specs.Prelude.{◌≡◌, ◌-◌, [], length, IfOk, IsSome, Some};
ghost use Rattle.index_page.specs.declared.TheConstants.{PAGE_ROOM};
ghost use Rattle.index_page.specs.Rows.{find_row};
ghost use Rattle.index_page.specs.Page.{IsNeighbour, IsPageInOrder, linked};
ghost use Rattle.index_page.specs.Loads.{load_of};
ghost use Rattle.page_rows.specs.Reading.{row_of_record};
ghost use Rattle.byte_page.specs.Form.{form_in_bytes, IsBytePage};

use crate::PAGE_BYTES;
use crate::front::{put_links, read_front, write_front};
use compact_record::{RecordRef, view};
use index_page::{Gaps, PAGE_ROOM, PageHead};
use key_tuple::NoMemory;
use page_mirror::{garbage, row_count, write_empty};
use page_rows::{page_gaps, page_load};
use std::alloc::Global;
use std::marker::Model;

/// A page of an index that is its bytes, seen as the head and the rows that they spell, each at the
/// place where its key begins, where it has bytes for a record, how many are in no use, and how
/// many records each slot has.
#[derive(Drop)]
pub struct BytePage {
    pub(crate) bytes: Vec<u8>,
    pub(crate) fields: u8,
}

impl Model for BytePage {
    ghost use Rattle.byte_page.specs.Form.{GappedPage, form_in_bytes, IsBytePage};

    ghost Value = { GappedPage };

    ghost view = { λ p. form_in_bytes p.bytes.items p.fields };

    ghost invariant = { λ p. IsBytePage p.bytes.items p.fields };
}

impl BytePage {
    /// A page without rows.
    pub fn empty(alloc: Global, head: PageHead) -> Result<BytePage, NoMemory>
        requires prev { IsNeighbour head.prev }
        requires next { IsNeighbour head.next }
        ensures head { IfOk result (λ form. form.page.head ≡ head) }
        ensures rows { IfOk result (λ form. form.page.rows ≡ []) }
        ensures garbage { IfOk result (λ form. form.garbage ≡ 0) }
    {
        let mut bytes = vec![in alloc; 0; PAGE_BYTES]?;
        write_front(&mut bytes, &head);
        write_empty(&mut bytes);
        Ok(BytePage {
            bytes,
            fields: head.fields,
        })
    }

    /// What the page is beside its rows.
    pub fn head(&self) -> PageHead
        ensures { result ≡ self.now.page.head }
    {
        read_front(&self.bytes, self.fields)
    }

    /// Gives the page other neighbours.
    pub fn link(&mut self, prev: Option<u32>, next: Option<u32>)
        requires prev { IsNeighbour prev }
        requires next { IsNeighbour next }
        ensures head { self.new.page.head ≡ linked self.old.page.head prev next }
        ensures rows { self.new.page.rows ≡ self.old.page.rows }
        ensures gaps { self.new.gaps ≡ self.old.gaps }
        ensures garbage { self.new.garbage ≡ self.old.garbage }
        ensures slots { self.new.slots ≡ self.old.slots }
    {
        put_links(&mut self.bytes, prev, next);
    }

    /// The page is in order.
    pub fn is_in_order(&self)
        ensures { IsPageInOrder self.now.page }
    {
        let _ = &self.fields;
    }

    /// How many rows there are.
    pub fn count(&self) -> u16
        ensures { result ≡ length self.now.page.rows }
    {
        row_count(&self.bytes)
    }

    /// What the page is charged for its rows.
    pub fn load(&self) -> u16
        ensures { result ≡ load_of self.now.page.rows }
    {
        page_load(&self.bytes)
    }

    /// The room that is left: a row whose charge is at most this has room.
    pub fn free(&self) -> u16
        ensures { result ≡ PAGE_ROOM - load_of self.now.page.rows }
    {
        PAGE_ROOM - page_load(&self.bytes)
    }

    /// The gaps of the page.
    pub fn gaps(&self) -> Gaps
        ensures { result ≡ self.now.gaps }
    {
        page_gaps(&self.bytes, self.fields)
    }

    /// How many bytes before HEAP_TOP are in no use.
    pub fn garbage(&self) -> u16
        ensures { result ≡ self.now.garbage }
    {
        garbage(&self.bytes)
    }

    /// The page's bytes, lent.
    pub fn bytes(&self) -> &[u8]
        ensures form { form_in_bytes result.now self.now.page.head.fields ≡ self.now }
        ensures sound { IsBytePage result.now self.now.page.head.fields }
    {
        self.bytes.as_slice()
    }

    /// The row at a place, lent: its key's fields, and what it carries as the tail. `first` and
    /// `next` tell places at which rows stand.
    pub fn row(&self, place: u16) -> RecordRef<'_>
        requires { IsSome (find_row place self.now.page.rows) }
        ensures { find_row place self.now.page.rows ≡ Some (row_of_record place result) }
    {
        view(&self.bytes, place, self.fields)
    }
}

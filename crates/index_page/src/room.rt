//! Whether a page takes a row.
ghost use Rattle.std.specs.Prelude.{◌≡◌, ◌≤◌, ◌+◌, Some, None, IsSome};
ghost use Rattle.index_page.specs.declared.TheConstants.{PAGE_ROOM, MAX_CHARGE};
ghost use Rattle.index_page.specs.Rows.{Row, Bytes, find_row};
ghost use Rattle.index_page.specs.Changes.{rows_without};
ghost use Rattle.index_page.specs.Loads.{charge_of, load_of};
ghost use Rattle.index_page.specs.Refusals.{free_of, ample_gaps, gaps_of, room_refusal, set_refusal};

use crate::PAGE_ROOM;
use crate::charges::{record_charge, size_with_length};
use crate::error::PageError;
use crate::page::Page;
use crate::spot::Place;
use key_tuple::Value;

/// Where a page has bytes for a record, beside those of its records.
#[derive(Clone, Copy)]
pub struct Gaps {
    /// How long the record was that was taken out last and whose bytes weren't taken again, 0 where
    /// there is none.
    pub head: u16,
    /// How many bytes are left behind all records.
    pub rest: u16,
}

impl Page {
    /// The gaps of the page. Of this form it says that any record is taken.
    pub fn gaps(&self) -> Gaps
        ensures { result ≡ gaps_of self.now }
    {
        Gaps {
            head: PAGE_ROOM,
            rest: PAGE_ROOM,
        }
    }

    /// Why a row that needs so much isn't put in, if it isn't.
    pub(crate) fn refusal(&self, need: u16) -> Option<PageError>
        requires { need ≤ MAX_CHARGE }
        ensures is { result ≡ room_refusal need (free_of self.now) (gaps_of self.now) }
        ensures room { result ≡ None → load_of self.now.rows + need ≤ PAGE_ROOM }
    {
        self.is_in_order();
        refusal_by(need, self.free())
    }

    /// Why the row at a place gets no other value, if it doesn't. It takes no memory.
    pub fn refusal_to_set(&self, place: Place, value: &Value) -> Option<PageError>
        requires there { IsSome (find_row place self.now.rows) }
        requires level { self.now.head.level ≡ 0 }
        ensures { result ≡ set_refusal self.now place value.now }
    {
        self.is_in_order();
        let row = self.row(place);
        let (old, new) = (row.value(), value.as_bytes());
        if new.len() == old.len() {
            return None;
        }
        let others = self.load - self.charge_at(place);
        refusal_by(
            record_charge(&row, size_with_length(new)),
            PAGE_ROOM - others,
        )
    }

    /// What the page is charged once the row at a place has another value.
    pub(crate) fn load_with(&self, place: Place, value: &Value) -> u16
        requires there { IsSome (find_row place self.now.rows) }
        requires level { self.now.head.level ≡ 0 }
        ensures { (row : Row) → find_row place self.now.rows ≡ Some row → result
            ≡ load_of (rows_without place self.now.rows) + charge_of row.key (Bytes value.now) }
    {
        self.is_in_order();
        let others = self.load - self.charge_at(place);
        others + record_charge(&self.row(place), size_with_length(value.as_bytes()))
    }
}

/// Why a row that needs so much isn't taken where so much is free, if it isn't.
fn refusal_by(need: u16, free: u16) -> Option<PageError>
    requires { need ≤ MAX_CHARGE }
    ensures { result ≡ room_refusal need free ample_gaps }
{
    if need > free {
        Some(PageError::PageFull { need, free })
    } else {
        None
    }
}

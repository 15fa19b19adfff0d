//! From row to row.
ghost use Rattle.std.specs.Prelude.{◌≤◌, length, take, IsSome, slice_get};
ghost use Rattle.index_page.specs.declared.TheConstants.{PAGE_ROOM};
ghost use Rattle.index_page.specs.Rows.{find_row, first_of_rows, last_of_rows, IsAt};
ghost use Rattle.index_page.specs.Search.{IsPosition};
ghost use Rattle.index_page.specs.Changes.{NextIs, PrevIs, IsBeside};

use crate::page::Page;
use crate::spot::Place;
use key_tuple::Mode;

impl Page {
    /// The place of the first row, none on a page with no rows.
    pub fn first(&self) -> Option<Place>
        ensures { IsAt self.now.rows result (first_of_rows self.now.rows) }
    {
        self.place_after(0)
    }

    /// The place of the last row, none on a page with no rows.
    pub fn last(&self) -> Option<Place>
        ensures { IsAt self.now.rows result (last_of_rows self.now.rows) }
    {
        self.place_before(self.rows.len())
    }

    /// The place of the next row, none at the last one.
    pub fn next(&self, place: Place) -> Option<Place>
        requires { IsSome (find_row place self.now.rows) }
        ensures { NextIs self.now.rows place result }
    {
        self.place_after(self.position(place) + 1)
    }

    /// The same, where the row's number is likely to be the one named: it is looked at first, so
    /// that a walk that counts its rows searches for none.
    pub fn next_near(&self, place: Place, number: usize) -> Option<Place>
        requires { IsSome (find_row place self.now.rows) }
        ensures { NextIs self.now.rows place result }
    {
        self.place_after(self.position_near(place, number) + 1)
    }

    /// The place of the row before, none at the first one.
    pub fn prev(&self, place: Place) -> Option<Place>
        requires { IsSome (find_row place self.now.rows) }
        ensures { PrevIs self.now.rows place result }
    {
        self.place_before(self.position(place))
    }

    /// The places of the row before and of the next one, found by one look at the row.
    pub fn beside(&self, place: Place) -> (Option<Place>, Option<Place>)
        requires { IsSome (find_row place self.now.rows) }
        ensures { IsBeside self.now.rows place result.0 result.1 }
    {
        let at = self.position(place);
        (self.place_before(at), self.place_after(at + 1))
    }

    /// The number of the row at a place.
    pub(crate) fn position(&self, place: Place) -> usize
        requires { IsSome (find_row place self.now.rows) }
        ensures row { IsPosition self.now.rows place result }
        ensures few { result ≤ PAGE_ROOM }
    {
        self.cut(&self.rows.record(place), Mode::Ge)
    }

    /// The same, with a look at the row of a number first.
    fn position_near(&self, place: Place, number: usize) -> usize
        requires { IsSome (find_row place self.now.rows) }
        ensures row { IsPosition self.now.rows place result }
        ensures few { result ≤ PAGE_ROOM }
    {
        if number < self.rows.len() && self.rows.stored(number).0 == place {
            number
        } else {
            self.position(place)
        }
    }

    /// The place of the first row after so many.
    fn place_after(&self, count: usize) -> Option<Place>
        ensures { IsAt self.now.rows result (slice_get self.now.rows count) }
    {
        if count < self.rows.len() {
            Some(self.rows.stored(count).0)
        } else {
            None
        }
    }

    /// The place of the last of so many rows.
    fn place_before(&self, count: usize) -> Option<Place>
        requires { count ≤ length self.now.rows }
        ensures { IsAt self.now.rows result (last_of_rows (take count self.now.rows)) }
    {
        if count == 0 {
            None
        } else {
            Some(self.rows.stored(count - 1).0)
        }
    }
}

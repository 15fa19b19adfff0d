//! From row to row.
ghost use Rattle.std.specs.Prelude.{◌≡◌, IsSome, Some, None, nat_eq, if◌then◌else◌};
ghost use Rattle.index_page.specs.Rows.{find_row, first_of_rows, last_of_rows, IsAt};
ghost use Rattle.index_page.specs.Changes.{NextIs, PrevIs};

use crate::page::BytePage;
use crate::search::place_left;
use key_tuple::{Blank, Mode};
use page_mirror::next_of;
use page_search::find_cut;

/// Where infimum stands, which leads to the first row.
pub(crate) const INFIMUM: u16 = 99;

/// Where supremum stands, to which the last row leads.
const SUPREMUM: u16 = 112;

impl BytePage {
    /// The place of the first row, none on a page with no rows.
    pub fn first(&self) -> Option<u16>
        ensures { IsAt self.now.page.rows result (first_of_rows self.now.page.rows) }
    {
        row_place(next_of(&self.bytes, INFIMUM))
    }

    /// The place of the last row, none on a page with no rows.
    pub fn last(&self) -> Option<u16>
        ensures { IsAt self.now.page.rows result (last_of_rows self.now.page.rows) }
    {
        let no_fields = Blank { count: 0 };
        place_left(find_cut(&self.bytes, self.fields, &no_fields, Mode::Le).before)
    }

    /// The place of the next row, none at the last one.
    pub fn next(&self, place: u16) -> Option<u16>
        requires { IsSome (find_row place self.now.page.rows) }
        ensures { NextIs self.now.page.rows place result }
    {
        row_place(next_of(&self.bytes, place))
    }

    /// The place of the row before, none at the first one.
    pub fn prev(&self, place: u16) -> Option<u16>
        requires { IsSome (find_row place self.now.page.rows) }
        ensures { PrevIs self.now.page.rows place result }
    {
        let row = self.row(place);
        place_left(find_cut(&self.bytes, self.fields, &row, Mode::Ge).before)
    }
}

/// The place itself, if it is a row's.
pub(crate) fn row_place(place: u16) -> Option<u16>
    ensures { result ≡ if nat_eq place 112 then None else Some place }
{
    if place == SUPREMUM { None } else { Some(place) }
}

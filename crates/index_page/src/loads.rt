//! How much of its room a page's rows take.
ghost use Rattle.std.specs.Prelude.{◌≡◌, ◌≤◌, ◌<◌, ◌-◌, length, take, Some, IsSome};
ghost use Rattle.index_page.specs.declared.TheConstants.{PAGE_ROOM};
ghost use Rattle.index_page.specs.Rows.{Row, find_row};
ghost use Rattle.index_page.specs.Loads.{charge_of, load_of, HalvesRows};

use crate::PAGE_ROOM;
use crate::page::Page;
use crate::spot::Place;

impl Page {
    /// What the page is charged for its rows.
    pub fn load(&self) -> u16
        ensures { result ≡ load_of self.now.rows }
    {
        self.load
    }

    /// The room that is left: a row whose charge is at most this has room.
    pub fn free(&self) -> u16
        ensures { result ≡ PAGE_ROOM - load_of self.now.rows }
    {
        PAGE_ROOM - self.load
    }

    /// What the page is charged for the row at a place.
    pub(crate) fn charge_at(&self, place: Place) -> u16
        requires { IsSome (find_row place self.now.rows) }
        ensures { (row : Row) → find_row place self.now.rows ≡ Some row →
            result ≡ charge_of row.key row.body }
    {
        self.rows.record(place).charge()
    }

    /// What the page is charged for its first rows, so many.
    pub(crate) fn load_of_first(&self, count: usize) -> u16
        requires { count ≤ length self.now.rows }
        ensures { result ≡ load_of (take count self.now.rows) }
    {
        let mut load = 0;
        for i in 0..count {
            load += self.rows.stored(i).1.charge();
        }
        load
    }

    /// After how many rows a split cuts the page: as near to half of the load as rows allow, and
    /// the first such cut.
    pub fn split_point(&self) -> u16
        requires { 1 < length self.now.rows }
        ensures { HalvesRows self.now.rows result }
    {
        let (mut cut, mut least) = (0, self.load);
        let mut left = 0;
        for i in 0..self.rows.len() {
            left += self.rows.stored(i).1.charge();
            let larger = left.max(self.load - left);
            if larger < least {
                (cut, least) = (i + 1, larger);
            }
        }
        cut as u16
    }
}

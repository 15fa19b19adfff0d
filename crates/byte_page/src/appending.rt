//! Rows of another page that come behind all others.
ghost use Rattle.std.specs.Prelude.{◌≡◌, List, Some, IsSome};
ghost use Rattle.index_page.specs.Rows.{Row, find_row};
ghost use Rattle.index_page.specs.Loads.{charge_of};
ghost use Rattle.page_rows.specs.Inserting.{place_before};
ghost use Rattle.byte_page.specs.Moving.{CanAppend, AppendsRow, CanAppendRows, AppendsRows};

use crate::page::BytePage;
use crate::walks::INFIMUM;
use compact_record::measure;
use index_page::Place;
use page_rows::append_row;

impl BytePage {
    /// Puts the same rows as those of another page behind the last one, from the one at `first` on.
    pub(crate) fn append_rows(&mut self, from: &BytePage, first: Option<Place>)
        requires { (left : List Row) × (others : List Row)
            × CanAppendRows self.old from.now first left others }
        ensures { (left others : List Row) → CanAppendRows self.old from.now first left others
            → AppendsRows self.old self.new others }
    {
        from.is_in_order();
        let mut last = self.last_or_infimum();
        let mut next = first;
        for _ in 0..from.count() {
            match next {
                Some(place) => {
                    last = self.append(last, from, place);
                    next = from.next(place);
                }
                None => return,
            }
        }
    }

    /// Puts the same row as that at a place of another page behind the last one, whose place is
    /// `last`, and tells its place.
    fn append(&mut self, last: Place, from: &BytePage, place: Place) -> Place
        requires { CanAppend self.old from.now last place }
        ensures { (row : Row) → find_row place from.now.page.rows ≡ Some row
            → AppendsRow self.old self.new row result }
    {
        from.is_in_order();
        let size = from.charge_at(place) - 1;
        let record = from.row(place);
        append_row(
            &mut self.bytes,
            last,
            record.kind(),
            &record,
            record.tail(),
            size,
        )
    }

    /// The place of the last row, or that of infimum.
    pub(crate) fn last_or_infimum(&self) -> Place
        ensures { result ≡ place_before self.now.page.rows }
    {
        self.last().unwrap_or(INFIMUM)
    }

    /// What the page is charged for the row at a place.
    pub(crate) fn charge_at(&self, place: Place) -> u16
        requires { IsSome (find_row place self.now.page.rows) }
        ensures { (row : Row) → find_row place self.now.page.rows ≡ Some row →
            result ≡ charge_of row.key row.body }
    {
        let extent = measure(&self.bytes, place, self.fields);
        extent.end - extent.start + 1
    }
}

//! Rows of a page by their numbers.
ghost use Rattle.std.specs.Prelude.{ℕ, ◌<◌, ◌+◌, length, slice_get};
ghost use Rattle.index_page.specs.Rows.{IsAt};
ghost use Rattle.tree_restructure.specs.Cuts.{IsHalfPlace};

use index_page::{Page, Place};

/// The place of the first row of the upper half.
pub(crate) fn half_place(page: &Page) -> Place
    requires { 1 < length page.now.rows }
    ensures { IsHalfPlace page.now.rows result }
{
    match place_at(page, page.split_point()) {
        Some(place) => place,
        None => unreachable!(),
    }
}

/// The place of the row with that number, from 0, none where there are no more.
fn place_at(page: &Page, number: u16) -> Option<Place>
    ensures { IsAt page.now.rows result (slice_get page.now.rows number) }
{
    let mut place = page.first();
    for _i in 0..number {
        place = place_behind(page, place);
    }
    place
}

/// The place of the row behind one, none behind the last and behind none.
fn place_behind(page: &Page, place: Option<Place>) -> Option<Place>
    requires { (i : ℕ) × IsAt page.now.rows place (slice_get page.now.rows i) }
    ensures { (i : ℕ) → IsAt page.now.rows place (slice_get page.now.rows i)
        → IsAt page.now.rows result (slice_get page.now.rows (i + 1)) }
{
    page.is_in_order();
    match place {
        Some(place) => page.next(place),
        None => None,
    }
}

//! What a held page tells of a row.
ghost use Rattle.std.specs.Prelude.{◌≡◌, ◌≤◌, length, IsSome};
ghost use Rattle.key_tuple.specs.KeyPlace.{cut_of, looks_ahead};
ghost use Rattle.index_page.specs.Rows.{find_row};
ghost use Rattle.guess_check.specs.Check.{is_ge, ChecksRow, TellsFirst, TellsLast};

use index_page::{Page, Place, places_tell_rows};
use key_tuple::{Fields, Mode, compare, is_past};

/// Whether the row at a place is the one that the mode asks for, by this page alone: then it tells
/// whether the tuple's fields are those of its key. Where the page doesn't show it, `None`.
pub fn check<A: Fields>(page: &Page, place: Place, tuple: &A, mode: Mode) -> Option<bool>
    requires row { IsSome (find_row place page.now.rows) }
    requires fields { length (A.fields_of tuple.now) ≤ page.now.head.fields }
    ensures { ChecksRow mode (A.fields_of tuple.now) page.now place result }
{
    page.is_in_order();
    places_tell_rows();
    let row = page.row(place);
    let found = compare(tuple, &row).is_eq();
    if is_past(mode, tuple, &row) != looks_ahead(mode) {
        return None;
    }
    if is_ge(mode) && found && tuple.count() == page.head().fields {
        return Some(true);
    }
    let is_end = if looks_ahead(mode) {
        is_first(page, place, tuple, mode)
    } else {
        is_last(page, place, tuple, mode)
    };
    if is_end { Some(found) } else { None }
}

/// Whether the cut leaves out the row before the one at a place. Where there is none, whether the
/// page has no page before it.
fn is_first<A: Fields>(page: &Page, place: Place, tuple: &A, mode: Mode) -> bool
    requires row { IsSome (find_row place page.now.rows) }
    requires fields { length (A.fields_of tuple.now) ≤ page.now.head.fields }
    ensures { TellsFirst (cut_of mode (A.fields_of tuple.now)) page.now place result }
{
    match page.prev(place) {
        Some(before) => !is_past(mode, tuple, &page.row(before)),
        None => page.head().prev.is_none(),
    }
}

/// Whether the cut admits the row after the one at a place. Where there is none, whether the page
/// has no page after it.
fn is_last<A: Fields>(page: &Page, place: Place, tuple: &A, mode: Mode) -> bool
    requires row { IsSome (find_row place page.now.rows) }
    requires fields { length (A.fields_of tuple.now) ≤ page.now.head.fields }
    ensures { TellsLast (cut_of mode (A.fields_of tuple.now)) page.now place result }
{
    match page.next(place) {
        Some(after) => is_past(mode, tuple, &page.row(after)),
        None => page.head().next.is_none(),
    }
}

/// Whether the mode asks for the row after its cut.
fn looks_ahead(mode: Mode) -> bool
    ensures { result ≡ looks_ahead mode }
{
    matches!(mode, Mode::Ge | Mode::G)
}

/// Whether the mode asks for the first row that isn't below the tuple.
fn is_ge(mode: Mode) -> bool
    ensures { result ≡ is_ge mode }
{
    matches!(mode, Mode::Ge)
}

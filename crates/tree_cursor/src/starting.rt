//! Where the rows of a leaf begin that a cursor has before it.
ghost use Rattle.std.specs.Prelude.{◌≡◌, true, length, IfSome};
ghost use Rattle.clock_law.specs.ModifyClock.{HasKeyAt};
ghost use Rattle.tree_cursor.specs.Starts.{place_of, BeginsAt};

use crate::cursor::Cursor;
use index_page::{Page, Place};
use key_tuple::Mode;

/// The place of the first row that isn't before the cursor, none where each row is. Where it is told
/// that the cursor's place has its key, no row is searched for.
pub(crate) fn start_on(page: &Page, has_key: bool, cursor: &Cursor) -> Option<Place>
    requires fields { length cursor.now.key.tuple ≡ page.now.head.fields }
    requires key { has_key ≡ true → IfSome cursor.now.place
        (λ place. HasKeyAt page.now.rows place cursor.now.key.tuple) }
    ensures { BeginsAt page.now.rows (place_of cursor.now) result }
{
    page.is_in_order();
    match cursor.place {
        Some(place) if has_key => from_place(page, place, cursor),
        _ => {
            let mode = if cursor.after { Mode::G } else { Mode::Ge };
            page.search(&cursor.key, mode).after
        }
    }
}

/// The same, where the cursor's place has its key.
fn from_place(page: &Page, place: Place, cursor: &Cursor) -> Option<Place>
    requires fields { length cursor.now.key.tuple ≡ page.now.head.fields }
    requires key { HasKeyAt page.now.rows place cursor.now.key.tuple }
    ensures { BeginsAt page.now.rows (place_of cursor.now) result }
{
    page.is_in_order();
    if cursor.after {
        page.next(place)
    } else {
        Some(place)
    }
}

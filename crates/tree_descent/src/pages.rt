//! The page in a frame, and what a search of it picks.
ghost use Rattle.std.specs.Prelude.{◌≡◌, ◌≢◌, ◌≤◌, Some, [], length};
ghost use Rattle.key_tuple.specs.Position.{position_cut};
ghost use Rattle.index_page.specs.Page.{PageRows};
ghost use Rattle.tree_descent.specs.Paths.{PicksChild};

use crate::positions::mode_of_position;
use forest_world::Frame;
use index_page::Page;
use key_tuple::{Fields, Mode};

/// The page of a frame that has one.
pub(crate) fn page_of(frame: &Frame) -> &Page
    requires { (page : PageRows) × (frame.now.page ≡ Some page) }
    ensures { frame.now.page ≡ Some result.now }
{
    match &frame.page {
        Some(page) => page,
        None => unreachable!(),
    }
}

/// The child of the row whose range has the position: the last row that the position leaves out or,
/// where it leaves out none, the first row.
pub(crate) fn child_in<T: Fields>(page: &Page, tuple: &T, mode: Mode) -> u32
    requires fields { length (T.fields_of tuple.now) ≤ page.now.head.fields }
    requires inner { page.now.head.level ≢ 0 }
    requires some { page.now.rows ≢ [] }
    ensures { PicksChild (position_cut page.now.head.fields mode (T.fields_of tuple.now))
        page.now.rows result }
{
    let spot = page.search(tuple, mode_of_position(page.head().fields, mode, tuple));
    match spot.before.or(spot.after) {
        Some(place) => page.row(place).child(),
        None => unreachable!(),
    }
}

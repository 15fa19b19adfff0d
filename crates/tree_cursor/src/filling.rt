//! Rows of a leaf are taken for a piece, and the cursor is moved behind them.
ghost use Rattle.std.specs.Prelude.{◌≡◌, ◌≤◌, Some, length, option_map, IfOk, OnErr, IfSome};
ghost use Rattle.index_page.specs.Page.{PageRows};
ghost use Rattle.forest_law.specs.State.{bound};
ghost use Rattle.tree_cursor.specs.Fills.{MayFill, Fills, is_past_at, IsLastFrom, MayMove, MovesTo};

use crate::cursor::Cursor;
use forest_world::Frame;
use index_page::{Page, Place};
use key_tuple::{Key, Mode, NoMemory, Tuple, is_past};
use map_history::Rows;
use page_view::{Stop, take_rows};

/// How a piece ends.
#[derive(Clone, Copy)]
pub(crate) enum Ending {
    /// With as many rows as were asked for.
    Full,
    /// At TO, or with the last leaf.
    Past,
    /// With its leaf, before TO: the scan goes on from the cursor.
    Onward,
}

/// Puts rows of the leaf behind others, from a place on, and moves the cursor behind them where the
/// scan goes on. After `NoMemory` the rows and the cursor are as before.
pub(crate) fn fill(
    found: &Frame,
    block: u32,
    start: Option<Place>,
    to: Option<&Tuple>,
    left: u32,
    cursor: &mut Cursor,
    rows: &mut Rows,
) -> Result<Ending, NoMemory>
    requires leaf { (page : PageRows) × MayFill found.now page start cursor.old }
    requires to { IfSome to (λ t. length t.now.fields ≤ length cursor.old.key.tuple) }
    ensures ok { IfOk result (λ ending. (page : PageRows) → found.now.page ≡ Some page
        → Fills found.now page block start (option_map (λ t. t.now.fields) to.entry) left rows.old
        rows.new ending cursor.old cursor.new) }
    ensures err { OnErr result (rows.new ≡ rows.old) }
    ensures stays { OnErr result (cursor.new ≡ cursor.old) }
{
    let Some(page) = &found.page else {
        unreachable!()
    };
    page.is_in_order();
    match take_rows(page, start, to, left, rows)? {
        Stop::AtLimit => Ok(Ending::Full),
        Stop::AtTo => Ok(Ending::Past),
        Stop::AtPageEnd => {
            if is_past_all(&found.high, to) {
                return Ok(Ending::Past);
            }
            move_to(found, page, block, last_from(page, start), cursor);
            Ok(Ending::Onward)
        }
    }
}

/// Whether no key from the bound on is below TO.
fn is_past_all(high: &Option<Key>, to: Option<&Tuple>) -> bool
    requires { IfSome high.now (λ k. IfSome to (λ t. length t.now.fields ≤ length k.tuple)) }
    ensures { result ≡ is_past_at (option_map (λ t. t.now.fields) to.entry) (bound high.now) }
{
    match (high, to) {
        (None, _) => true,
        (Some(_), None) => false,
        (Some(high), Some(to)) => is_past(Mode::Ge, to, high),
    }
}

/// The place of the last row, if there is a place to begin at.
fn last_from(page: &Page, start: Option<Place>) -> Option<Place>
    ensures { IsLastFrom page.now.rows start result }
{
    match start {
        Some(_) => page.last(),
        None => None,
    }
}

/// Moves the cursor behind the row at a place or, where no place is named, before the high key.
fn move_to(found: &Frame, page: &Page, block: u32, last: Option<Place>, cursor: &mut Cursor)
    requires { MayMove found.now page.now last cursor.old }
    ensures { MovesTo found.now page.now block last cursor.old cursor.new }
{
    page.is_in_order();
    let _key = cursor.key.tuple();
    match last {
        Some(place) => cursor.key.refill(&page.row(place)),
        None => {
            let Some(high) = &found.high else {
                unreachable!()
            };
            high.tuple().is_within_limits();
            cursor.key.refill(high);
        }
    }
    cursor.block = block;
    cursor.clock = found.clock;
    cursor.page = page.head().number;
    cursor.place = last;
    cursor.after = last.is_some();
}

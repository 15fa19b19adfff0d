//! Rows of a leaf, copied from a place on.
ghost use Rattle.std.specs.Prelude.{◌≡◌, ◌≤◌, length, not, option_map, OnErr, IfOk, IfSome};
ghost use Rattle.key_tuple.specs.KeyPlace.{At};
ghost use Rattle.map_history.specs.Scans.{is_below};
ghost use Rattle.page_view.specs.Taking.{IsPlaceIn, rows_from_place, TakesRows};

use index_page::{Page, Place, RowRef};
use key_tuple::{Mode, NoMemory, Tuple, is_past};
use map_history::Rows;

/// Why no further row of a leaf is taken.
#[derive(Clone, Copy)]
pub enum Stop {
    /// As many as were asked for are taken.
    AtLimit,
    /// The next one isn't below TO.
    AtTo,
    /// There is no next one.
    AtPageEnd,
}

/// Puts copies of a leaf's rows behind others, from the row at a place on, until there are as many
/// as the limit, or the next one isn't below TO, or none is left. After `NoMemory` the others are
/// as before.
pub fn take_rows(
    page: &Page,
    start: Option<Place>,
    to: Option<&Tuple>,
    limit: u32,
    rows: &mut Rows,
) -> Result<Stop, NoMemory>
    requires level { page.now.head.level ≡ 0 }
    requires start { IsPlaceIn page.now.rows start }
    requires to { IfSome to (λ t. length t.now.fields ≤ page.now.head.fields) }
    ensures ok { IfOk result (λ stop. TakesRows (rows_from_place start page.now.rows)
        (option_map (λ t. t.now.fields) to.entry) limit rows.old rows.new stop) }
    ensures err { OnErr result (rows.new ≡ rows.old) }
{
    page.is_in_order();
    let old_count = rows.count();
    let mut next = start;
    for number in 0..limit {
        let Some(place) = next else {
            return Ok(Stop::AtPageEnd);
        };
        let row = page.row(place);
        if is_past_to(&row, to) {
            return Ok(Stop::AtTo);
        }
        if rows.push(&row, row.value()).is_err() {
            rows.cut(old_count);
            return Err(NoMemory);
        }
        // Mostly the rows are those from the first one on.
        next = page.next_near(place, number as usize);
    }
    Ok(Stop::AtLimit)
}

/// Whether the row isn't below TO.
fn is_past_to(row: &RowRef<'_>, to: Option<&Tuple>) -> bool
    requires { IfSome to (λ t. length t.now.fields ≤ length row.now.row.key) }
    ensures { result ≡ not (is_below (option_map (λ t. t.now.fields) to.entry) (At row.now.row.key)) }
{
    match to {
        Some(to) => is_past(Mode::Ge, to, row),
        None => false,
    }
}

//! From a slot's owner on, row by row, up to a cut.
ghost use Rattle.std.specs.Prelude.{◌≡◌, ◌≤◌, List, length};
ghost use Rattle.index_page.specs.Rows.{Row};
ghost use Rattle.index_page.specs.Page.{RowsAscend};
ghost use Rattle.page_rows.specs.Reading.{rows_in_bytes};
ghost use Rattle.page_rows.specs.Spelling.{IsPageOfRows};
ghost use Rattle.page_search.specs.Cuts.{FindsCut, IsOnTheWay, place_in};
ghost use Rattle.page_search.specs.Judging.{IsFirstField};
ghost use Rattle.page_search.specs.Steps.{StepsOn};

use crate::agreement::lesser;
use crate::cut::{CutPlace, Narrowed};
use crate::judging::{first_field, judge};
use crate::slots::owner_before;
use key_tuple::{Fields, Mode};
use page_mirror::next_of;

/// Where supremum stands, to which the last row leads.
const SUPREMUM: u16 = 112;

/// As many rows an owner owns beside itself, at most.
const BESIDE_OWNER: u8 = 7;

/// What a step told.
pub(crate) enum Step {
    /// The cut is here.
    Here(Narrowed),
    /// The cut leaves out the row that was passed.
    On(Narrowed),
}

/// Where the mode's cut parts the rows, and how far the tuple agrees with those around it. A
/// comparison begins behind what the row has in common with the tuple, as told by rows around it.
pub fn find_cut<A: Fields>(page: &[u8], fields: u8, tuple: &A, mode: Mode) -> CutPlace
    requires page { IsPageOfRows page.now fields }
    requires ascend { RowsAscend (rows_in_bytes page.now fields) }
    requires tuple { length (A.fields_of tuple.now) ≤ fields }
    ensures { FindsCut (rows_in_bytes page.now fields) mode (A.fields_of tuple.now) result }
{
    let first = first_field(tuple);
    let mut found = owner_before(page, fields, tuple, first, mode);
    for _ in 0..BESIDE_OWNER {
        match go_on(page, fields, found, tuple, first, mode) {
            Step::On(next) => found = next,
            Step::Here(cut) => return cut.place(),
        }
    }
    found.place()
}

/// Goes on to the next row, if the cut leaves it out.
fn go_on<A: Fields>(
    page: &[u8],
    fields: u8,
    found: Narrowed,
    tuple: &A,
    first: &[u8],
    mode: Mode,
) -> Step
    requires tuple { length (A.fields_of tuple.now) ≤ fields }
    requires first { IsFirstField (A.fields_of tuple.now) first.now }
    requires way { (left : List Row) × (middle : List Row) × (right : List Row)
        × IsOnTheWay page.now fields mode (A.fields_of tuple.now) left middle right
        (place_in found) }
    ensures { (left middle right : List Row)
        → IsOnTheWay page.now fields mode (A.fields_of tuple.now) left middle right
        (place_in found)
        → StepsOn page.now fields mode (A.fields_of tuple.now) left middle right result }
{
    let next = next_of(page, found.before);
    if next == SUPREMUM {
        return Step::Here(found);
    }
    let verdict = judge(
        page,
        fields,
        next,
        tuple,
        first,
        mode,
        lesser(found.low, found.up),
    );
    if verdict.admitted {
        return Step::Here(Narrowed {
            before: found.before,
            low: found.low,
            up: verdict.figures,
        });
    }
    Step::On(Narrowed {
        before: next,
        low: verdict.figures,
        up: found.up,
    })
}

//! From slot to slot, by halves.
ghost use Rattle.std.specs.Prelude.{◌≡◌, ◌≤◌, length};
ghost use Rattle.index_page.specs.Page.{RowsAscend};
ghost use Rattle.page_rows.specs.Reading.{rows_in_bytes};
ghost use Rattle.page_rows.specs.Spelling.{IsPageOfRows};
ghost use Rattle.page_search.specs.Cuts.{NarrowsRows, place_in};
ghost use Rattle.page_search.specs.Judging.{IsFirstField};

use crate::agreement::{Agreement, lesser};
use crate::cut::Narrowed;
use crate::judging::judge;
use key_tuple::{Fields, Mode};
use page_mirror::{slot_count, slot_owner};

/// How far a tuple agrees with no row.
const NOTHING: Agreement = Agreement { packed: 0 };

/// The last owner that the mode's cut leaves out, or infimum, and how far the tuple agrees with it
/// and with the next owner.
pub(crate) fn owner_before<A: Fields>(
    page: &[u8],
    fields: u8,
    tuple: &A,
    first: &[u8],
    mode: Mode,
) -> Narrowed
    requires page { IsPageOfRows page.now fields }
    requires ascend { RowsAscend (rows_in_bytes page.now fields) }
    requires tuple { length (A.fields_of tuple.now) ≤ fields }
    requires first { IsFirstField (A.fields_of tuple.now) first.now }
    ensures { NarrowsRows page.now fields mode (A.fields_of tuple.now) (place_in result) }
{
    let last = slot_count(page) - 1;
    let mut low = 0;
    let mut high = u32::from(last);
    let mut below = NOTHING;
    let mut above = NOTHING;
    while low + 1 < high {
        let middle = (low + high) / 2;
        let owner = slot_owner(page, middle as u16);
        let verdict = judge(
            page,
            fields,
            owner,
            tuple,
            first,
            mode,
            lesser(below, above),
        );
        if verdict.admitted {
            high = middle;
            above = verdict.figures;
        } else {
            low = middle;
            below = verdict.figures;
        }
    }
    Narrowed {
        before: slot_owner(page, low as u16),
        low: below,
        up: above,
    }
}

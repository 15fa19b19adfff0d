//! How a tuple stands to a row.
ghost use Rattle.std.specs.Prelude.{◌≡◌, ◌≤◌, length};
ghost use Rattle.compact_record.specs.Reading.{HasRecord, record_at};
ghost use Rattle.page_search.specs.Agreeing.{AgreesTo, agreed};
ghost use Rattle.page_search.specs.Cuts.{admits_at};
ghost use Rattle.page_search.specs.Judging.{IsFirstField, Judges};

use crate::agreement::Agreement;
use crate::comparing::compare_from;
use crate::words::{WORD, equal_in, first_apart, word};
use compact_record::view;
use key_tuple::{Fields, Mode};
use std::cmp::Ordering;

/// What a comparison with a row tells.
#[derive(Clone, Copy)]
pub(crate) struct Verdict {
    /// Whether the cut admits the row.
    pub(crate) admitted: bool,
    /// How far the tuple agrees with it.
    pub(crate) figures: Agreement,
}

/// The first field, no bytes where there is none.
#[inline(always)]
pub(crate) fn first_field<A: Fields>(tuple: &A) -> &[u8]
    ensures { IsFirstField (A.fields_of tuple.now) result.now }
{
    if tuple.count() == 0 {
        &[]
    } else {
        tuple.field(0)
    }
}

/// Compares the tuple, whose first field is `first`, with the row at a place, with which it agrees
/// as far as `from` says. Words of the first fields tell it, if there they differ.
#[inline(always)]
pub(crate) fn judge<A: Fields>(
    page: &[u8],
    fields: u8,
    at: u16,
    tuple: &A,
    first: &[u8],
    mode: Mode,
    from: Agreement,
) -> Verdict
    requires there { HasRecord page.now at fields }
    requires tuple { length (A.fields_of tuple.now) ≤ fields }
    requires first { IsFirstField (A.fields_of tuple.now) first.now }
    requires agrees { AgreesTo (A.fields_of tuple.now) (record_at page.now at fields).key
        (agreed from) }
    ensures { Judges mode (A.fields_of tuple.now) (record_at page.now at fields).key result }
{
    if !from.is_in_first() || first.len() < WORD {
        return judge_all(page, fields, at, tuple, mode, from);
    }
    let row = view(page, at, fields);
    let other = row.field(0);
    if other.len() < first.len() {
        return judge_all(page, fields, at, tuple, mode, from);
    }
    let start = usize::from(from.bytes());
    let place = first_apart(first, other, start, first.len() - WORD);
    let left = word(first, place);
    let right = word(other, place);
    if left != right {
        return Verdict {
            admitted: left < right,
            figures: Agreement::new(0, (place + equal_in(left, right)) as u16),
        };
    }
    if tuple.count() > 1 || other.len() > first.len() {
        return judge_all(page, fields, at, tuple, mode, from);
    }
    Verdict {
        admitted: is_admitted(mode, Ordering::Equal),
        figures: Agreement::new(1, 0),
    }
}

/// Compares all fields of the tuple with those of the row at a place.
#[inline(never)]
fn judge_all<A: Fields>(
    page: &[u8],
    fields: u8,
    at: u16,
    tuple: &A,
    mode: Mode,
    from: Agreement,
) -> Verdict
    requires there { HasRecord page.now at fields }
    requires tuple { length (A.fields_of tuple.now) ≤ fields }
    requires agrees { AgreesTo (A.fields_of tuple.now) (record_at page.now at fields).key
        (agreed from) }
    ensures { Judges mode (A.fields_of tuple.now) (record_at page.now at fields).key result }
{
    let found = compare_from(tuple, &view(page, at, fields), from.figures());
    Verdict {
        admitted: is_admitted(mode, found.order),
        figures: Agreement::new(found.figures.fields, found.figures.bytes),
    }
}

/// Whether the mode's cut admits a row to which the tuple stands like this.
#[inline(always)]
fn is_admitted(mode: Mode, order: Ordering) -> bool
    ensures { result ≡ admits_at mode order }
{
    match mode {
        Mode::Ge | Mode::L => !order.is_gt(),
        Mode::G | Mode::Le => order.is_lt(),
    }
}

//! The check of a guess on a page with a page before it.
use crate::claims::ensure;
use crate::rows::{key_of, leaf_of};
use guess_check::check;
use index_page::Page;
use key_tuple::{Fields, Mode};
use std::process::Abort;

/// The fields that are sought, of a letter each, how, and what the check tells of the page's first row.
type Check = (&'static [u8], Mode, Option<bool>);

/// The page has (m, 5) and (m, 7).
static CHECKS: [Check; 5] = [
    // A first row passes by its whole key alone, since a page stands before it,
    (b"m3", Mode::Ge, None),
    (b"m5", Mode::Ge, Some(true)),
    // on which its group may begin;
    (b"m", Mode::Ge, None),
    // and where the next row is past the cut.
    (b"m7", Mode::Le, None),
    (b"m6", Mode::Le, Some(false)),
];

#[test]
fn a_first_row_passes_by_its_key_or_by_the_next_row(rt: HostRuntime) {
    let page = leaf_of(&rt, 2, b"m5m7");
    for row in CHECKS.iter() {
        assert_check(&rt, &page, row);
    }
}

// The check tells that of the page's first row.
fn assert_check<R: AllocGlobal + Abort>(rt: &R, page: &Page, row: &Check) {
    let (fields, mode, told) = *row;
    let place = page.first().expect(rt, "a row");
    let tuple = key_of(rt, fields);
    ensure(rt, tuple.count() <= page.head().fields, "no more fields");
    ensure(rt, check(page, place, &tuple, mode) == told, "this answer");
}

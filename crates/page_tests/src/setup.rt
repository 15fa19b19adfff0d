//! Pages to test, and claims of them. What isn't as it has to be ends the test where it is found.
ghost use Rattle.std.specs.Prelude.{◌≡◌, [], length, IfSome, IsSome};
ghost use Rattle.key_tuple.specs.Limits.{IsWithinLimits};
ghost use Rattle.index_page.specs.Rows.{find_row};

use crate::claims::ensure;
use index_page::{Body, Page, PageError, PageHead, Place, charge};
use key_tuple::{Blank, Fields, Key, Mode, Value};
use sample_rows::{key_of, value_of};
use std::process::Abort;

/// The key of one field, of these bytes.
pub(crate) fn key<R: AllocGlobal + Abort>(rt: &R, bytes: &[u8]) -> Key
    ensures one { length result.tuple ≡ 1 }
    ensures limits { IsWithinLimits result.tuple }
{
    let key = key_of(rt.alloc(), bytes).expect(rt, "a key");
    key.tuple().is_within_limits();
    key
}

/// The value of these bytes.
pub(crate) fn value<R: AllocGlobal + Abort>(rt: &R, bytes: &[u8]) -> Value {
    value_of(rt.alloc(), bytes).expect(rt, "a value")
}

/// A page with no rows, for keys of one field.
pub(crate) fn page_of<R: AllocGlobal + Abort>(rt: &R, level: u16) -> Page
    ensures rows { result.rows ≡ [] }
{
    let head = PageHead {
        number: 7,
        index: 2,
        level,
        prev: None,
        next: Some(9),
        fields: 1,
    };
    Page::empty(rt.alloc(), head).expect(rt, "a page")
}

/// Puts a row of these bytes in, whose key isn't there.
pub(crate) fn put<R: AllocGlobal + Abort>(
    rt: &R,
    page: &mut Page,
    field: &[u8],
    bytes: &[u8],
) -> Result<Place, PageError> {
    let (key, value) = (key(rt, field), value(rt, bytes));
    ensure(rt, page.head().level == 0, "a leaf");
    ensure(rt, page.head().fields == 1, "keys of one field");
    let spot = page.search(&key, Mode::Ge);
    ensure(rt, spot.up.fields != 1, "another key");
    page.insert_at(&spot, &key, Body::Value(&value))
}

/// The same, where it is taken: its place.
pub(crate) fn put_bytes<R: AllocGlobal + Abort>(
    rt: &R,
    page: &mut Page,
    field: &[u8],
    bytes: &[u8],
) -> Place {
    put(rt, page, field, bytes).expect(rt, "room for a row")
}

/// What a page is charged for a row of these bytes.
pub(crate) fn charged<R: AllocGlobal + Abort>(rt: &R, field: &[u8], bytes: &[u8]) -> u16 {
    let (key, value) = (key(rt, field), value(rt, bytes));
    charge(&key, Body::Value(&value))
}

/// A leaf with a row for each letter, which is its key and its value, put in in this order.
pub(crate) fn lettered<R: AllocGlobal + Abort>(rt: &R, letters: &[u8]) -> Page {
    let mut page = page_of(rt, 0);
    for letter in letters {
        put_bytes(rt, &mut page, &[*letter], &[*letter]);
    }
    page
}

/// The place of the first row.
pub(crate) fn first(page: &Page) -> Option<Place>
    ensures { IfSome result (λ place. IsSome (find_row place page.now.rows)) }
{
    page.search(&Blank { count: 0 }, Mode::Ge).after
}

/// The place of the row after that one.
pub(crate) fn next(page: &Page, place: Place) -> Option<Place>
    requires { IsSome (find_row place page.now.rows) }
    ensures { IfSome result (λ place. IsSome (find_row place page.now.rows)) }
{
    page.next(place)
}

/// The row has this key, of one field.
fn has_key(page: &Page, place: Place, key: &[u8]) -> bool
    requires { IsSome (find_row place page.now.rows) }
{
    let row = page.row(place);
    row.count() == 1 && row.field(0) == key
}

/// The keys are these letters, in the order of the rows.
pub(crate) fn assert_letters<R: Abort>(rt: &R, page: &Page, letters: &[u8]) {
    let mut at = first(page);
    for letter in letters {
        let place = at.expect(rt, "a row");
        ensure(rt, has_key(page, place, &[*letter]), "this letter");
        at = next(page, place);
    }
    ensure(rt, at.is_none(), "no more rows");
}

/// The place of the row with that key, if it is there.
pub(crate) fn place_at<R: AllocGlobal + Abort>(rt: &R, page: &Page, field: &[u8]) -> Option<Place>
    ensures { IfSome result (λ place. IsSome (find_row place page.now.rows)) }
{
    let key = key(rt, field);
    ensure(rt, page.head().fields == 1, "keys of one field");
    let spot = page.search(&key, Mode::Ge);
    if spot.up.fields == 1 {
        spot.after
    } else {
        None
    }
}

/// Gives the row with that key, which is there, a value of these bytes.
pub(crate) fn set<R: AllocGlobal + Abort>(
    rt: &R,
    page: &mut Page,
    field: &[u8],
    bytes: &[u8],
) -> Result<Place, PageError> {
    let place = place_at(rt, page, field).expect(rt, "a row");
    ensure(rt, page.head().level == 0, "a leaf");
    page.set(place, &value(rt, bytes))
}

/// Takes the row with that key out, which is there.
pub(crate) fn take_out<R: AllocGlobal + Abort>(rt: &R, page: &mut Page, field: &[u8]) {
    let place = place_at(rt, page, field).expect(rt, "a row");
    page.delete(place);
}

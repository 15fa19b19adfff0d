//! A worked leaf: a row is put in, found, taken back, given a longer value and taken out.
ghost use Rattle.std.specs.Prelude.{IfNone, IfSome, IsSome};
ghost use Rattle.leaf_rows.specs.Changing.{LacksRow, WasPut, HasRowOf};

use crate::claims::ensure;
use forest_law::Frame;
use index_page::{Page, PageHead, Place, Spot};
use key_tuple::{Fields, Key, Mode, Value};
use leaf_rows::{LeafBefore, delete_row, grow_value, put_back, put_row, take_back, value_len};
use learning::BlockFigures;
use page_view::find_key;
use sample_rows::{key_of, value_of};
use std::process::Abort;

/// A frame with an empty leaf for keys of one field.
fn leaf_frame<R: AllocGlobal + Abort>(rt: &R) -> Frame {
    let head = PageHead {
        number: 3,
        index: 1,
        level: 0,
        prev: None,
        next: None,
        fields: 1,
    };
    Frame {
        page: Some(Page::empty(rt.alloc(), head).expect(rt, "a page")),
        low: None,
        high: None,
        clock: 5,
        figures: BlockFigures::opening(),
        hashed: None,
    }
}

/// Where the key belongs on the leaf, and where its row stands, if it is there.
fn sought<R: Abort>(rt: &R, frame: &Frame, key: &Key) -> (Spot, Option<Place>)
    ensures free { IfNone result.1 (LacksRow frame.now key.now.tuple result.0) }
    ensures there { IfSome result.1 (λ place. HasRowOf frame.now place key.now.tuple) }
    ensures page { IsSome frame.now.page }
{
    let page = frame.page.as_ref().expect(rt, "a page");
    let head = page.head();
    ensure(
        rt,
        head.level == 0 && head.fields == key.count(),
        "a leaf for the key",
    );
    let spot = page.search(key, Mode::Ge);
    let place = find_key(page, key, &spot);
    (spot, place)
}

/// The clock is there, and the key's row has a value of that length, or is missing.
fn assert_shows<R: Abort>(rt: &R, frame: &Frame, key: &Key, clock: u64, length: Option<usize>)
    ensures { IsSome frame.now.page }
{
    let (_, place) = sought(rt, frame, key);
    let is_so = match place {
        Some(place) => length == Some(value_len(frame, place)),
        None => length.is_none(),
    };
    ensure(rt, is_so && frame.clock == clock, "this row and this clock");
}

/// Puts a row in whose key is missing, and finds it.
fn put_in<R: Abort>(rt: &R, frame: &mut Frame, key: &Key, value: &Value) -> Place
    ensures { WasPut frame.new result }
{
    let (spot, there) = sought(rt, frame, key);
    ensure(rt, there.is_none(), "no such row");
    let place = put_row(frame, &spot, key, value).expect(rt, "room for a row");
    ensure(
        rt,
        sought(rt, frame, key).1 == Some(place),
        "the row at its place",
    );
    place
}

/// Gives the key's row a longer value.
fn grow<R: AllocGlobal + Abort>(rt: &R, frame: &mut Frame, key: &Key, longer: &Value) -> LeafBefore
    ensures { IsSome result.page }
{
    let place = sought(rt, frame, key).1.expect(rt, "a row");
    if longer.as_bytes().len() <= value_len(frame, place) {
        rt.panic("a longer value")
    }
    grow_value(rt.alloc(), frame, place, longer)
        .expect(rt, "room for a value")
        .before
}

/// A row is put in and taken back. It is put in again, gets a longer value, and the leaf is put back,
/// clock and all. Then the row is deleted, and the clock is raised.
fn work_leaf<R: AllocGlobal + Abort>(
    rt: &R,
    frame: &mut Frame,
    key: &Key,
    value: &Value,
    longer: &Value,
) {
    let place = put_in(rt, frame, key, value);
    assert_shows(rt, frame, key, 5, Some(4));
    take_back(frame, place);
    assert_shows(rt, frame, key, 5, None);
    put_in(rt, frame, key, value);
    let before = grow(rt, frame, key, longer);
    assert_shows(rt, frame, key, 6, Some(9));
    put_back(frame, before);
    assert_shows(rt, frame, key, 5, Some(4));
    let place = sought(rt, frame, key).1.expect(rt, "a row");
    delete_row(frame, place);
    assert_shows(rt, frame, key, 6, None);
}

/// All of this on a leaf of its own.
fn work_new_leaf<R: AllocGlobal + Abort>(rt: &R) {
    let key = key_of(rt.alloc(), b"oak").expect(rt, "a key");
    let value = value_of(rt.alloc(), b"tree").expect(rt, "a value");
    let longer = value_of(rt.alloc(), b"tall tree").expect(rt, "a longer value");
    let mut frame = leaf_frame(rt);
    work_leaf(rt, &mut frame, &key, &value, &longer);
}

#[test]
fn a_row_is_taken_back_grown_put_back_and_deleted(rt: HostRuntime) {
    work_new_leaf(&rt);
}

//! Worked pages: searches, places, children, many rows.
use crate::claims::ensure;
use crate::setup::{assert_letters, key, lettered, page_of, place_at, put_bytes, take_out};
use index_page::{Body, Page, Place, spots_tell_keys};
use key_tuple::{Blank, Fields, Key, Match, Mode};
use std::marker::Send;
use std::process::Abort;

/// A row beside a cut, if there is one, and how far the text agrees with it.
type Side = (Option<Place>, Match);

/// The texts of three rows, in the order in which they come. Each has its place of this table.
static TEXTS: [&[u8]; 3] = [b"bc", b"d", b"ba"];

/// The places of the rows of `ba`, `bc` and `d`.
const BA: Option<Place> = Some(2);

const BC: Option<Place> = Some(0);

const D: Option<Place> = Some(1);

/// A leaf with these rows.
fn three_texts<R: AllocGlobal + Abort>(rt: &R) -> Page {
    let mut page = page_of(rt, 0);
    for (place, text) in TEXTS.iter().enumerate() {
        let is_there = usize::from(put_bytes(rt, &mut page, text, b"v")) == place;
        ensure(rt, is_there, "the text's place");
    }
    page
}

/// A text agrees with a key not at all, in a byte, or whole.
const NONE: Match = Match {
    fields: 0,
    bytes: 0,
};

const BYTE: Match = Match {
    fields: 0,
    bytes: 1,
};

const WHOLE: Match = Match {
    fields: 1,
    bytes: 0,
};

/// A text, a mode, and where that cuts these rows.
type Cut = (&'static [u8], Mode, Side, Side);

static CUTS: [Cut; 8] = [
    (b"b", Mode::Ge, (None, NONE), (BA, BYTE)),
    (b"bb", Mode::G, (BA, BYTE), (BC, BYTE)),
    (b"bc", Mode::Ge, (BA, BYTE), (BC, WHOLE)),
    (b"bc", Mode::G, (BC, WHOLE), (D, NONE)),
    (b"bc", Mode::Le, (BC, WHOLE), (D, NONE)),
    (b"bc", Mode::L, (BA, BYTE), (BC, WHOLE)),
    (b"d", Mode::Le, (D, WHOLE), (None, NONE)),
    (b"e", Mode::Ge, (D, NONE), (None, NONE)),
];

/// The search cuts between the rows that it has to.
fn assert_cut<R: AllocGlobal + Abort>(rt: &R, page: &Page, cut: &Cut) {
    let (text, mode, below, above) = *cut;
    let tuple = key(rt, text);
    ensure(rt, page.head().fields == 1, "keys of one field");
    let spot = page.search(&tuple, mode);
    ensure(rt, (spot.before, spot.low) == below, "this row before");
    ensure(rt, (spot.after, spot.up) == above, "this row after");
}

/// A tuple without fields finds the first and the last row.
fn has_ends(page: &Page) -> bool {
    let all = Blank { count: 0 };
    let (first, last) = (page.search(&all, Mode::L), page.search(&all, Mode::Le));
    first.after == BA && last.before == D
}

#[test]
fn spots_are_where_the_modes_cut(rt: HostRuntime) {
    let page = three_texts(&rt);
    for cut in CUTS.iter() {
        assert_cut(&rt, &page, cut);
    }
    ensure(&rt, has_ends(&page), "the first and the last row");
}

fn sent<T: Send>(value: T) -> T {
    value
}

/// The row of b goes, and d with another value comes to its place.
fn give_way<R: AllocGlobal + Abort>(rt: &R, page: &mut Page) {
    let old = place_at(rt, page, b"b");
    take_out(rt, page, b"b");
    ensure(rt, place_at(rt, page, b"b").is_none(), "no such row");
    ensure(
        rt,
        Some(put_bytes(rt, page, b"d", b"new")) == old,
        "the row's place",
    );
}

/// Of c, a and b the first two are where they were, and d came.
fn assert_given_way<R: AllocGlobal + Abort>(rt: &R, page: &Page) {
    assert_letters(rt, page, b"acd");
    let place = place_at(rt, page, b"d").expect(rt, "a row");
    ensure(rt, page.head().level == 0, "a leaf");
    ensure(
        rt,
        page.row(place).value() == b"new".as_slice(),
        "the new value",
    );
    ensure(rt, place_at(rt, page, b"c") == Some(0), "the first place");
    ensure(rt, place_at(rt, page, b"a") == Some(1), "the second place");
}

#[test]
fn a_place_is_taken_again(rt: HostRuntime) {
    let mut page = lettered(&rt, b"cab");
    give_way(&rt, &mut page);
    assert_given_way(&rt, &sent(page));
}

/// Puts a child's row in, whose key isn't there.
fn put_child<R: Abort>(rt: &R, page: &mut Page, key: &Key, child: u32) {
    let head = *page.head();
    if head.level == 0 || key.count() != head.fields {
        rt.panic("a page for such keys");
    }
    let spot = page.search(key, Mode::Ge);
    if spot.up.fields == key.count() {
        rt.panic("another key");
    }
    page.is_in_order();
    key.tuple().is_within_limits();
    spots_tell_keys();
    page.insert(key, Body::Child(child))
        .expect(rt, "room for a row");
}

/// The child under that key.
fn child_of<R: AllocGlobal + Abort>(rt: &R, page: &Page, field: &[u8]) -> u32 {
    let place = place_at(rt, page, field).expect(rt, "a row");
    ensure(rt, page.head().level != 0, "an inner page");
    page.row(place).child()
}

#[test]
fn an_inner_page_has_children(rt: HostRuntime) {
    let mut page = page_of(&rt, 1);
    put_child(&rt, &mut page, &key(&rt, b"m"), 5);
    ensure(&rt, child_of(&rt, &page, b"m") == 5, "the child");
}

/// The numbers up to 1,000 in an order of their own.
fn scattered(n: u16) -> [u8; 4] {
    (u32::from(n) * 389 % 1000).to_be_bytes()
}

/// Puts so many rows in, each at a further place, or where rows went, each at a place that was left.
fn put_many<R: AllocGlobal + Abort>(rt: &R, page: &mut Page, count: u16, left: bool) {
    for n in 0..count {
        let place = put_bytes(rt, page, &scattered(n), b"v");
        ensure(rt, place == n || left && place < 500, "a place for the row");
    }
}

/// Takes 500 rows out.
fn take_half<R: AllocGlobal + Abort>(rt: &R, page: &mut Page) {
    for n in 0..500 {
        take_out(rt, page, &scattered(n));
    }
}

/// Each number up to 1,000 is a key.
fn assert_all<R: AllocGlobal + Abort>(rt: &R, page: &Page) {
    for n in 0..1000u32 {
        let place = place_at(rt, page, &n.to_be_bytes());
        ensure(rt, place.is_some(), "a row");
    }
}

#[test]
fn many_rows_come_and_go(rt: HostRuntime) {
    come_and_go(&rt, &mut page_of(&rt, 0));
}

/// The rows come, half of them go, and these come back.
fn come_and_go<R: AllocGlobal + Abort>(rt: &R, page: &mut Page) {
    put_many(rt, page, 1000, false);
    take_half(rt, page);
    ensure(rt, page.count() == 500, "500 rows");
    put_many(rt, page, 500, true);
    assert_all(rt, page);
    ensure(rt, page.count() == 1000, "1,000 rows");
}

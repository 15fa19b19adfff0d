//! Leaves, and rows that come to them.
ghost use Rattle.std.specs.Prelude.{◌≡◌, IsSome};
ghost use Rattle.index_page.specs.Rows.{find_row};
ghost use Rattle.index_page.specs.Changes.{rows_without};

use crate::claims::ensure;
use hash_upkeep::rows_come_and_go;
use index_page::{Body, Page, PageHead, Place};
use key_tuple::{Fields, Key, Mode};
use sample_rows::value_of;
use std::process::Abort;

/// A leaf of index 0 with a page before it and no rows, for keys of so many fields.
fn empty_leaf<R: AllocGlobal + Abort>(rt: &R, fields: u8) -> Page
    ensures { result.head.fields ≡ fields }
{
    let head = PageHead {
        number: 1,
        index: 0,
        level: 0,
        prev: Some(0),
        next: None,
        fields,
    };
    Page::empty(rt.alloc(), head).expect(rt, "a page")
}

/// The key of these fields, of a letter each, two at most.
pub(crate) fn key_of<R: AllocGlobal + Abort>(rt: &R, letters: &[u8]) -> Key {
    let is_one = letters.len() == 1;
    ensure(rt, is_one || letters.len() == 2, "one letter or two");
    let ends: &[usize] = if is_one { &[1] } else { &[1, 2] };
    let bytes = letters.to_vec(rt.alloc()).expect(rt, "memory for letters");
    Key::from_parts(bytes, ends).expect(rt, "a key")
}

/// Puts the row of these letters in, whose key isn't there, and tells its place.
pub(crate) fn put<R: AllocGlobal + Abort>(rt: &R, page: &mut Page, letters: &[u8]) -> Place
    ensures rows { rows_without result page.new.rows ≡ page.old.rows }
    ensures there { IsSome (find_row result page.new.rows) }
    ensures head { page.new.head ≡ page.old.head }
{
    let key = key_of(rt, letters);
    ensure(rt, page.head().level == 0, "a leaf");
    ensure(rt, key.count() == page.head().fields, "as many fields");
    let spot = page.search(&key, Mode::Ge);
    ensure(rt, spot.up.fields != key.count(), "another key");
    rows_come_and_go();
    key.tuple().is_within_limits();
    let value = value_of(rt.alloc(), b"v").expect(rt, "a value");
    page.insert_at(&spot, &key, Body::Value(&value))
        .expect(rt, "room for a row")
}

/// A leaf with rows of so many letters each.
pub(crate) fn leaf_of<R: AllocGlobal + Abort>(rt: &R, fields: u8, letters: &[u8]) -> Page
    ensures { result.head.fields ≡ fields }
{
    let mut page = empty_leaf(rt, fields);
    for row in letters.chunks(usize::from(fields).max(1)) {
        put(rt, &mut page, row);
    }
    ensure(rt, page.head().fields == fields, "the page's fields");
    page
}

//! A page in bytes beside a plain page, over many calls.
ghost use Rattle.std.specs.Prelude.{IfSome, IsSome};
ghost use Rattle.index_page.specs.Rows.{find_row};

use crate::claims::ensure;
use crate::setup::{charged, first, key, next, page_of, place_at, put, set, take_out, value};
use byte_page::{ByteCopy, BytePage};
use index_page::{Body, Gaps, Page, PageError, PageHead, Place};
use key_tuple::{Fields, Mode};
use std::process::Abort;

/// A page in both forms.
#[derive(Drop)]
struct Twins {
    plain: Page,
    bytes: BytePage,
    copy: ByteCopy,
}

/// Two pages without rows, of which one is its bytes.
fn twin_pages<R: AllocGlobal + Abort>(rt: &R) -> Twins {
    let head = PageHead {
        number: 7,
        index: 2,
        level: 0,
        prev: None,
        next: Some(9),
        fields: 1,
    };
    Twins {
        plain: page_of(rt, 0),
        bytes: BytePage::empty(rt.alloc(), head).expect(rt, "a page in bytes"),
        copy: ByteCopy::new(rt.alloc()).expect(rt, "a copy"),
    }
}

/// Puts a row of these bytes in, whose key isn't there: why it isn't taken, if it isn't.
fn put_in_bytes<R: AllocGlobal + Abort>(
    rt: &R,
    page: &mut BytePage,
    field: &[u8],
    bytes: &[u8],
) -> Option<PageError> {
    let (key, value) = (key(rt, field), value(rt, bytes));
    ensure(rt, page.head().level == 0, "a leaf");
    ensure(rt, page.head().fields == 1, "keys of one field");
    let spot = page.search(&key, Mode::Ge);
    ensure(rt, spot.up.fields != 1, "another key");
    page.insert_at(&spot, &key, Body::Value(&value)).err()
}

/// The place of the row with that key, if it is there.
fn place_in_bytes<R: AllocGlobal + Abort>(rt: &R, page: &BytePage, field: &[u8]) -> Option<Place>
    ensures { IfSome result (λ place. IsSome (find_row place page.now.page.rows)) }
{
    let key = key(rt, field);
    ensure(rt, page.head().fields == 1, "keys of one field");
    let spot = page.search(&key, Mode::Ge);
    if spot.up.fields != 1 {
        return None;
    }
    spot.after
}

/// Whether there is a row with that key, on both pages or on neither.
fn is_there<R: AllocGlobal + Abort>(rt: &R, twins: &Twins, field: &[u8]) -> bool {
    let plain = place_at(rt, &twins.plain, field).is_some();
    let other = place_in_bytes(rt, &twins.bytes, field).is_some();
    ensure(rt, plain == other, "the row on both pages or on neither");
    plain
}

/// Some gap takes a record of this size.
fn takes(gaps: Gaps, size: u16) -> bool {
    let rest = u32::from(gaps.rest);
    size <= gaps.head && 2 <= rest || u32::from(size) + 2 <= rest
}

/// Why the page in bytes refuses a row that the plain one refuses so, or takes: alike, but where its
/// gaps take no record.
fn refusal(plain: Option<PageError>, gaps: Gaps, need: u16) -> Option<PageError> {
    if plain.is_some() || takes(gaps, need.saturating_sub(1)) {
        return plain;
    }
    let run = gaps.rest;
    Some(PageError::Scattered { need, run })
}

/// Both pages take the row, or refuse it as they have to. Where the one alone refuses it, the other one
/// gives it back.
fn insert<R: AllocGlobal + Abort>(rt: &R, twins: &mut Twins, field: &[u8], bytes: &[u8]) {
    let wanted = charged(rt, field, bytes);
    let gaps = twins.bytes.gaps();
    let plain = put(rt, &mut twins.plain, field, bytes).err();
    let other = put_in_bytes(rt, &mut twins.bytes, field, bytes);
    ensure(rt, other == refusal(plain, gaps, wanted), "this refusal");
    if plain.is_none() && other.is_some() {
        take_out(rt, &mut twins.plain, field);
    }
}

/// Takes the row with that key out of both pages.
fn delete<R: AllocGlobal + Abort>(rt: &R, twins: &mut Twins, field: &[u8]) {
    take_out(rt, &mut twins.plain, field);
    let place = place_in_bytes(rt, &twins.bytes, field).expect(rt, "a row in bytes");
    twins.bytes.delete(place);
}

/// Why the plain page refuses to give a row this value, if it does.
fn refusal_in_plain<R: AllocGlobal + Abort>(
    rt: &R,
    page: &Page,
    field: &[u8],
    bytes: &[u8],
) -> Option<PageError> {
    let place = place_at(rt, page, field).expect(rt, "a row");
    ensure(rt, page.head().level == 0, "a leaf");
    page.refusal_to_set(place, &value(rt, bytes))
}

/// Gives a row on the page in bytes this value, or is refused as the plain page is, or as its gaps want
/// it: why, if it is.
fn set_in_bytes<R: AllocGlobal + Abort>(
    rt: &R,
    page: &mut BytePage,
    field: &[u8],
    bytes: &[u8],
    plain: Option<PageError>,
) -> Option<PageError> {
    let place = place_in_bytes(rt, page, field).expect(rt, "a row in bytes");
    ensure(rt, page.head().level == 0, "a leaf");
    let wanted = if page.row(place).tail().len() == bytes.len() {
        plain
    } else {
        refusal(plain, page.gaps_without(place), charged(rt, field, bytes))
    };
    let told = page.set(place, &value(rt, bytes)).err();
    ensure(rt, told == wanted, "this refusal");
    wanted
}

/// Both rows get the value, or are refused it as they have to. Where the one alone is refused it, the
/// other isn't asked.
fn set_both<R: AllocGlobal + Abort>(rt: &R, twins: &mut Twins, field: &[u8], bytes: &[u8]) {
    let plain = refusal_in_plain(rt, &twins.plain, field, bytes);
    let refused = set_in_bytes(rt, &mut twins.bytes, field, bytes, plain).is_some();
    if !refused {
        set(rt, &mut twins.plain, field, bytes).expect(rt, "room for the value");
    }
}

/// One call on both pages, by a number drawn at random, which asks for a value of up to 199 bytes.
fn call<R: AllocGlobal + Abort>(rt: &R, twins: &mut Twins, drawn: u32) {
    let field = (drawn % 256).to_be_bytes();
    let count = (drawn / 256 % 200) as usize;
    let bytes = &[7; 200][..count.min(200)];
    let kind = drawn / 65_536 % 64;
    if kind == 0 {
        twins.bytes.reorganise(&mut twins.copy);
        ensure(rt, twins.bytes.garbage() == 0, "no garbage");
    } else {
        change(rt, twins, kind, &field, bytes);
    }
}

/// A row that is there goes or gets the value, and one that isn't comes, as the kind says.
fn change<R: AllocGlobal + Abort>(
    rt: &R,
    twins: &mut Twins,
    kind: u32,
    field: &[u8],
    bytes: &[u8],
) {
    match (kind, is_there(rt, twins, field)) {
        (1..20, true) => delete(rt, twins, field),
        (20..36, true) => set_both(rt, twins, field, bytes),
        (36.., false) => insert(rt, twins, field, bytes),
        _ => {}
    }
}

/// So many calls: after each the loads are equal.
fn call_often<R: AllocGlobal + Abort>(rt: &R, twins: &mut Twins, calls: u32) {
    let mut state = 1u64;
    for _ in 0..calls {
        state = state
            .wrapping_mul(6_364_136_223_846_793_005)
            .wrapping_add(1);
        let drawn = (state / 4_294_967_296 % 4_294_967_296) as u32;
        call(rt, twins, drawn);
        ensure(rt, twins.plain.load() == twins.bytes.load(), "one load");
    }
}

/// The place of the row after that one.
fn next_in_bytes(page: &BytePage, place: Place) -> Option<Place>
    requires { IsSome (find_row place page.now.page.rows) }
    ensures { IfSome result (λ place. IsSome (find_row place page.now.page.rows)) }
{
    page.next(place)
}

/// The place of the first row.
fn first_in_bytes(page: &BytePage) -> Option<Place>
    ensures { IfSome result (λ place. IsSome (find_row place page.now.page.rows)) }
{
    page.first()
}

/// The rows have one key, and carry one value.
fn is_same_row(plain: &Page, at: Place, bytes: &BytePage, place: Place) -> bool
    requires plain { IsSome (find_row at plain.now.rows) }
    requires bytes { IsSome (find_row place bytes.now.page.rows) }
{
    let (row, record) = (plain.row(at), bytes.row(place));
    row.count() == 1
        && record.count() == 1
        && row.field(0) == record.field(0)
        && plain.head().level == 0
        && row.value() == record.tail()
}

/// The rows are the same, one after the other.
fn assert_same_rows<R: Abort>(rt: &R, plain: &Page, bytes: &BytePage) {
    let mut at = first(plain);
    let mut place = first_in_bytes(bytes);
    for _ in 0..plain.count() {
        let (row, record) = (at.expect(rt, "a row"), place.expect(rt, "a row in bytes"));
        ensure(rt, is_same_row(plain, row, bytes, record), "one row");
        at = next(plain, row);
        place = next_in_bytes(bytes, record);
    }
    ensure(rt, at.is_none() && place.is_none(), "no more rows");
}

/// After so many calls the rows are the same.
fn stay_alike<R: AllocGlobal + Abort>(rt: &R, calls: u32) {
    let mut twins = twin_pages(rt);
    call_often(rt, &mut twins, calls);
    assert_same_rows(rt, &twins.plain, &twins.bytes);
}

#[test]
fn pages_in_both_forms_stay_alike(rt: HostRuntime) {
    stay_alike(&rt, 1000);
    stay_alike(&rt, 20_000);
}

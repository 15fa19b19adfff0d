//! The bytes of a page against a dump.
ghost use Rattle.std.specs.Prelude.{◌≡◌, []};

use crate::claims::ensure;
use crate::records::OneByte;
use crate::setup::value;
use byte_page::BytePage;
use index_page::{Body, PageError, PageHead, Place, spots_tell_keys};
use key_tuple::{Mode, Value};
use std::process::Abort;

/// A line of a dump: where sixteen bytes stand, and which they are.
type Line = (usize, [u8; 16]);

/// The lines of page 3 of index 0 that aren't all zero.
static LINES: [Line; 8] = [
    (
        0x0000,
        [
            0, 0, 0, 0, 0, 0, 0, 3, 0xff, 0xff, 0xff, 0xff, 0xff, 0xff, 0xff, 0xff,
        ],
    ),
    (
        0x0010,
        [0, 0, 0, 0, 0, 0, 0, 0, 0x45, 0xbf, 0, 0, 0, 0, 0, 0],
    ),
    (
        0x0020,
        [0, 0, 0, 0, 0, 0, 0, 2, 0, 0x78, 0x80, 2, 0, 0, 0, 0],
    ),
    (0x0030, [0, 0, 0, 5, 0, 0, 0, 0, 0, 0, 0, 0, 0, 0, 0, 0]),
    (0x0050, [0, 0, 0, 0, 0, 0, 0, 0, 0, 0, 0, 0, 0, 0, 1, 0]),
    (0x0060, *b"\x02\x00\x0dinfimum\x00\x01\x00\x0b\x00\x00"),
    (0x0070, *b"supremum\x00\x00\x00\x00\x00\x00\x00\x00"),
    (
        0x3ff0,
        [0, 0, 0, 0, 0, 0x70, 0, 0x63, 0, 0, 0, 0, 0, 0, 0, 0],
    ),
];

/// The same once a row with the key `a` and the value `x` is in it.
static ROW_LINES: [Line; 9] = [
    (
        0x0000,
        [
            0, 0, 0, 0, 0, 0, 0, 3, 0xff, 0xff, 0xff, 0xff, 0xff, 0xff, 0xff, 0xff,
        ],
    ),
    (
        0x0010,
        [0, 0, 0, 0, 0, 0, 0, 0, 0x45, 0xbf, 0, 0, 0, 0, 0, 0],
    ),
    (
        0x0020,
        [0, 0, 0, 0, 0, 0, 0, 2, 0, 0x81, 0x80, 3, 0, 0, 0, 0],
    ),
    (0x0030, [0, 0, 0, 5, 0, 0, 0, 1, 0, 0, 0, 0, 0, 0, 0, 0]),
    (0x0050, [0, 0, 0, 0, 0, 0, 0, 0, 0, 0, 0, 0, 0, 0, 1, 0]),
    (0x0060, *b"\x02\x00\x1cinfimum\x00\x02\x00\x0b\x00\x00"),
    (0x0070, *b"supremum\x01\x01\x00\x00\x10\xff\xf1a"),
    (
        0x0080,
        *b"x\x00\x00\x00\x00\x00\x00\x00\x00\x00\x00\x00\x00\x00\x00\x00",
    ),
    (
        0x3ff0,
        [0, 0, 0, 0, 0, 0x70, 0, 0x63, 0, 0, 0, 0, 0, 0, 0, 0],
    ),
];

/// Parts of a page's bytes: where each begins, and which they are.
type Parts = &'static [(usize, &'static [u8])];

/// The head's numbers and the slots with eight rows, of the keys `a` to `h` and a value of one byte.
const EIGHT_PARTS: Parts = &[
    (38, &[0, 3, 0, 192, 0x80, 10, 0, 0]),
    (54, &[0, 8]),
    (0x3ff0, &[0, 0, 0, 0x70, 0, 0x9a, 0, 0x63]),
];

/// The row with the value `xyz`, behind the freed record of the row with `x`.
const LONGER_PARTS: Parts = &[
    (38, &[0, 2, 0, 140, 0x80, 4, 0, 127, 0, 9]),
    (97, &[0, 37]),
    (120, &[1, 1, 0, 0, 0x10, 0, 0, b'a', b'x']),
    (129, &[3, 1, 0, 0, 0x18, 0xff, 0xe8]),
    (136, b"axyz"),
];

/// The row with no value, over the record of the row with `x`, of which a byte is left.
const SHORTER_PARTS: Parts = &[
    (38, &[0, 2, 0, 129, 0x80, 3, 0, 0, 0, 1]),
    (97, &[0, 28]),
    (120, &[0, 1, 0, 0, 0x10, 0xff, 0xf1, b'a', b'x']),
];

/// A value that the row with `x` gets, the place where it stands then, and what the page has.
type Set = (&'static [u8], Place, Parts);

static SETS: [Set; 3] = [
    (b"y", 127, &[(0x80, b"y")]),
    (b"xyz", 136, LONGER_PARTS),
    (b"", 127, SHORTER_PARTS),
];

/// The line at a place, which is zero where it is none of these.
fn line_of(lines: &[Line], at: usize) -> [u8; 16] {
    for (start, bytes) in lines {
        if *start == at {
            return *bytes;
        }
    }
    [0; 16]
}

/// The sixteen bytes at a place of the page without rows.
pub(crate) fn line_at(at: usize) -> [u8; 16] {
    line_of(&LINES, at)
}

/// The bytes are those of these lines.
fn assert_dump<R: Abort>(rt: &R, bytes: &[u8], lines: &[Line]) {
    let mut at = 0usize;
    for line in bytes.chunks(16) {
        ensure(rt, line == line_of(lines, at).as_slice(), "the dump's line");
        at = at.wrapping_add(16);
    }
}

/// The bytes have these parts.
fn assert_parts<R: Abort>(rt: &R, bytes: &[u8], parts: Parts) {
    for (at, wanted) in parts {
        let found = bytes.get(*at..).unwrap_or(&[]);
        ensure(rt, found.starts_with(wanted), "this part");
    }
}

/// Page 3 of index 0 with nothing in it.
pub(crate) fn page_three<R: AllocGlobal + Abort>(rt: &R) -> BytePage
    ensures fields { result.page.head.fields ≡ 1 }
    ensures level { result.page.head.level ≡ 0 }
    ensures rows { result.page.rows ≡ [] }
{
    let head = PageHead {
        number: 3,
        index: 0,
        level: 0,
        prev: None,
        next: None,
        fields: 1,
    };
    BytePage::empty(rt.alloc(), head).expect(rt, "a page")
}

/// The same with the row, whose place is 127.
fn page_with_row<R: AllocGlobal + Abort>(rt: &R) -> BytePage
    ensures { result.page.head.level ≡ 0 }
{
    let mut page = page_three(rt);
    let key = OneByte { bytes: *b"a" };
    let value = value(rt, b"x");
    let place = page
        .insert(&key, Body::Value(&value))
        .expect(rt, "room for a row");
    ensure(rt, place == 127, "the first place");
    page
}

/// Offers a row whose key isn't there: where it stands then, or why it doesn't.
pub(crate) fn offer<R: Abort>(
    rt: &R,
    page: &mut BytePage,
    byte: u8,
    value: &Value,
) -> Result<Place, PageError>
    requires fields { page.old.page.head.fields ≡ 1 }
    requires level { page.old.page.head.level ≡ 0 }
    ensures fields { page.new.page.head.fields ≡ 1 }
    ensures level { page.new.page.head.level ≡ 0 }
{
    let key = OneByte { bytes: [byte] };
    page.is_in_order();
    spots_tell_keys();
    let spot = page.search(&key, Mode::Ge);
    if spot.up.fields == 1 {
        rt.panic("another key");
    }
    page.insert(&key, Body::Value(value))
}

/// Page 3 with rows of the keys `a` to `h` and values of these bytes, of which the first one stands at this
/// place and each other one so many bytes behind the one before.
pub(crate) fn page_with_eight<R: AllocGlobal + Abort>(
    rt: &R,
    bytes: &[u8],
    first: Place,
    step: Place,
) -> BytePage
    ensures fields { result.page.head.fields ≡ 1 }
    ensures level { result.page.head.level ≡ 0 }
{
    let mut page = page_three(rt);
    let value = value(rt, bytes);
    let mut place = first;
    for byte in b'a'..b'i' {
        let told = offer(rt, &mut page, byte, &value).expect(rt, "room for a row");
        ensure(rt, told == place, "the row's place");
        place = place.saturating_add(step);
    }
    page
}

/// Gives the first row a value of these bytes: where it stands then, or why it doesn't.
pub(crate) fn set_first<R: AllocGlobal + Abort>(
    rt: &R,
    page: &mut BytePage,
    bytes: &[u8],
) -> Result<Place, PageError>
    requires { page.old.page.head.level ≡ 0 }
{
    let value = value(rt, bytes);
    let place = page.first().expect(rt, "a row");
    page.set(place, &value)
}

/// Gives the row another value: it stands at that place then, and the page has these parts.
fn assert_set<R: AllocGlobal + Abort>(rt: &R, set: &Set) {
    let (value, place, parts) = *set;
    let mut page = page_with_row(rt);
    let told = set_first(rt, &mut page, value).expect(rt, "room for the value");
    ensure(rt, told == place, "the row's place");
    assert_parts(rt, page.bytes(), parts);
}

#[test]
fn pages_have_the_bytes_of_the_dump(rt: HostRuntime) {
    assert_dump(&rt, page_three(&rt).bytes(), &LINES);
    assert_dump(&rt, page_with_row(&rt).bytes(), &ROW_LINES);
}

#[test]
fn a_value_goes_in_place_behind_or_over_the_one_before(rt: HostRuntime) {
    for set in SETS.iter() {
        assert_set(&rt, set);
    }
}

// The eighth row splits the slot of supremum.
#[test]
fn a_page_with_eight_rows_has_three_slots(rt: HostRuntime) {
    assert_parts(&rt, page_with_eight(&rt, b"x", 127, 9).bytes(), EIGHT_PARTS);
}

//! The bytes of a page with long rows, full and scattered, against what the format says.
ghost use Rattle.std.specs.Prelude.{◌≡◌, ◌<◌, length};

use crate::claims::ensure;
use crate::dumps::{line_at, offer, page_with_eight, set_first};
use crate::setup::value;
use byte_page::BytePage;
use index_page::{PageError, Place};
use std::process::Abort;

/// The bytes of a row with a key of one byte and a value of 2,000.
const ROW_BYTES: usize = 2009;

/// Where the slots of these pages begin.
const SLOTS: usize = 16_370;

/// The bytes of the front of a page with eight rows, and without the first of them, that aren't
/// those of a page without rows.
static FRONT: [(usize, u8, u8); 11] = [
    (39, 3, 3),
    (40, 0x3f, 0x3f),
    (41, 0x40, 0x40),
    (43, 10, 10),
    (45, 0, 128),
    (46, 0, 0x07),
    (47, 0, 0xd9),
    (55, 8, 7),
    (97, 0, 0x07),
    (98, 29, 0xf6),
    (107, 5, 4),
];

/// The slots of supremum, of the fourth row, or of the fifth where the first one is gone, and of
/// infimum.
static ALL_SLOTS: [u8; 14] = [0, 0x70, 0x18, 0x0b, 0, 0x63, 0, 0, 0, 0, 0, 0, 0, 0];

static OTHER_SLOTS: [u8; 14] = [0, 0x70, 0x1f, 0xe4, 0, 0x63, 0, 0, 0, 0, 0, 0, 0, 0];

/// Page 3 with rows of the keys `a` to `h` and values of 2,000 bytes.
fn page_with_long<R: AllocGlobal + Abort>(rt: &R) -> BytePage
    ensures fields { result.page.head.fields ≡ 1 }
    ensures level { result.page.head.level ≡ 0 }
{
    page_with_eight(rt, &[b'x'; 2000], 128, ROW_BYTES as Place)
}

/// A byte of the front of a page with eight rows, or without the first of them.
fn front_byte(at: usize, gone: bool) -> u8 {
    for (place, all, others) in FRONT.iter() {
        if *place == at {
            return if gone { *others } else { *all };
        }
    }
    line_at(at / 16 * 16)[at % 16]
}

/// How many records the row with that number owns.
fn owned_by(row: usize, gone: bool) -> u8 {
    match (row, gone) {
        (3, false) | (4, true) => 4,
        _ => 0,
    }
}

/// How far the next record is from that of the row: the freed one leads nowhere, the last one back
/// to supremum.
fn distance(row: usize, gone: bool) -> [u8; 2] {
    match (row, gone) {
        (0, true) => [0, 0],
        (7, _) => [0xc9, 0x01],
        _ => [0x07, 0xd9],
    }
}

/// A byte of the row with that number.
fn row_byte(row: usize, at: usize, gone: bool) -> u8
    requires { row < 8 }
{
    match at {
        0 => 0xd0,
        1 => 0x87,
        2 => 1,
        3 => owned_by(row, gone),
        4 => 0,
        5 => 8 * (row as u8 + 2),
        6 => distance(row, gone)[0],
        7 => distance(row, gone)[1],
        8 => b'a' + row as u8,
        _ => b'x',
    }
}

/// A byte of the page.
fn byte_at(at: usize, gone: bool) -> u8
    requires { at < 16384 }
{
    if at < 120 {
        return front_byte(at, gone);
    }
    let row = (at - 120) / ROW_BYTES;
    if row < 8 {
        return row_byte(row, (at - 120) % ROW_BYTES, gone);
    }
    if at < SLOTS {
        return 0;
    }
    let slots = if gone { OTHER_SLOTS } else { ALL_SLOTS };
    slots[at - SLOTS]
}

/// The bytes are those that the format says.
fn assert_long_dump<R: Abort>(rt: &R, bytes: &[u8], gone: bool)
    requires { length bytes.now ≡ 16384 }
{
    for at in 0..16_384usize {
        ensure(rt, bytes[at] == byte_at(at, gone), "the byte of the format");
    }
}

/// What a page is told that has no gap for a row, or a value, that is a byte longer than the others.
static SCATTERED: Result<Place, PageError> = Err(PageError::Scattered {
    need: 2011,
    run: 178,
});

/// What it is told once eight rows have filled it.
static FULL: Result<Place, PageError> = Err(PageError::PageFull {
    need: 2010,
    free: 172,
});

/// A row with a value of so many bytes isn't taken, for that reason, and the bytes are those of the format.
fn assert_refused<R: AllocGlobal + Abort>(
    rt: &R,
    page: &mut BytePage,
    count: usize,
    told: &Result<Place, PageError>,
    gone: bool,
)
    requires fields { page.old.page.head.fields ≡ 1 }
    requires level { page.old.page.head.level ≡ 0 }
{
    let value = value(rt, &[b'x'; 2001][..count.min(2001)]);
    ensure(rt, offer(rt, page, b'i', &value) == *told, "this refusal");
    assert_long_dump(rt, page.bytes(), gone);
}

#[test]
fn a_full_page_has_the_bytes_of_the_format(rt: HostRuntime) {
    assert_refused(&rt, &mut page_with_long(&rt), 2000, &FULL, false);
}

/// Takes the first row out, which stands at 128.
fn take_first<R: Abort>(rt: &R, page: &mut BytePage)
    ensures { page.new.page.head ≡ page.old.page.head }
{
    let place = page.first().expect(rt, "a row");
    ensure(rt, place == 128, "the first place");
    page.delete(place);
}

#[test]
fn a_scattered_page_has_the_bytes_of_the_format(rt: HostRuntime) {
    let mut page = page_with_long(&rt);
    take_first(&rt, &mut page);
    assert_refused(&rt, &mut page, 2001, &SCATTERED, true);
}

#[test]
fn a_value_that_is_scattered_leaves_the_bytes(rt: HostRuntime) {
    let mut page = page_with_long(&rt);
    let told = set_first(&rt, &mut page, &[b'x'; 2001]);
    ensure(&rt, told == SCATTERED, "this refusal");
    assert_long_dump(&rt, page.bytes(), false);
}

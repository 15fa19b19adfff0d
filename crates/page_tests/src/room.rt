//! Worked loads, moves and copies.
use crate::claims::ensure;
use crate::setup::{
    assert_letters, charged, lettered, page_of, place_at, put, put_bytes, set, take_out,
};
use index_page::{Page, PageCopy, PageError, Place};
use std::process::Abort;

/// What a page is charged for a row with a key of one byte and a value of so many.
fn charge_at<R: AllocGlobal + Abort>(rt: &R, count: usize) -> u16 {
    charged(rt, b"k", &[7; 2048][..count.min(2048)])
}

#[test]
fn a_length_above_127_takes_two_bytes(rt: HostRuntime) {
    ensure(&rt, charge_at(&rt, 127) == 136, "one byte of length");
    ensure(&rt, charge_at(&rt, 128) == 138, "two bytes of length");
}

/// Puts rows of 1,012 bytes in, of which sixteen have room: what the next one is told.
fn fill_up<R: AllocGlobal + Abort>(rt: &R, page: &mut Page) -> Result<Place, PageError> {
    for n in 0..16 {
        put_bytes(rt, page, &[n], &[7; 1003]);
    }
    put(rt, page, &[16], &[7; 1003])
}

/// How many bytes the value of the first row has, what that is told, and how many are free then.
type Growth = (usize, Result<Place, PageError>, u16);

static VALUES: [Growth; 3] = [
    (1047, Ok(0), 0),
    (
        1048,
        Err(PageError::PageFull {
            need: 1058,
            free: 1057,
        }),
        0,
    ),
    (1047, Ok(0), 0),
];

/// Gives the first row this value.
fn assert_grows<R: AllocGlobal + Abort>(rt: &R, page: &mut Page, row: &Growth) {
    let (count, told, free) = *row;
    let grown = set(rt, page, &[0], &[8; 2048][..count.min(2048)]);
    ensure(rt, grown == told && page.free() == free, "this value");
}

/// What the row behind sixteen is told.
static FULL: Result<Place, PageError> = Err(PageError::PageFull {
    need: 1013,
    free: 44,
});

/// Sixteen rows of 1,012 bytes have room, another one has none, and the first one grows into what is free.
fn fill_and_grow<R: AllocGlobal + Abort>(rt: &R, page: &mut Page) {
    ensure(rt, fill_up(rt, page) == FULL, "a full page");
    ensure(rt, page.free() == 44, "44 free bytes");
    for row in VALUES.iter() {
        assert_grows(rt, page, row);
    }
}

/// Puts the row with that number in, the shortest first: of no byte, of one, and of two.
fn put_short<R: AllocGlobal + Abort>(rt: &R, page: &mut Page, n: u16) -> Result<Place, PageError> {
    let byte = [(n.wrapping_sub(1) % 256) as u8];
    let bytes = n.wrapping_sub(257).to_be_bytes();
    let field: &[u8] = match n {
        0 => &[],
        1..=256 => &byte,
        _ => &bytes,
    };
    put(rt, page, field, &[])
}

/// What a row is told that the shortest ones leave no byte for.
static NO_BYTE: Result<Place, PageError> = Err(PageError::PageFull { need: 10, free: 0 });

/// So many of the shortest rows have room, and then not a byte is left.
fn fill_with_short<R: AllocGlobal + Abort>(rt: &R, page: &mut Page) {
    for n in 0..1651 {
        put_short(rt, page, n).expect(rt, "room for a row");
    }
    ensure(rt, put_short(rt, page, 1651) == NO_BYTE, "a full page");
    ensure(rt, page.load() == 16252, "all bytes");
    ensure(rt, page.count() == 1651, "all rows");
}

#[test]
fn sixteen_rows_of_1012_bytes_or_1651_short_ones_fill_a_page(rt: HostRuntime) {
    fill_and_grow(&rt, &mut page_of(&rt, 0));
    fill_with_short(&rt, &mut page_of(&rt, 0));
}

/// After how many rows a split would cut the page.
fn cut_after<R: Abort>(rt: &R, page: &Page) -> u16 {
    ensure(rt, page.count() >= 2, "two rows");
    page.split_point()
}

/// The same once a huge row is there too.
fn cut_with_huge<R: AllocGlobal + Abort>(rt: &R, page: &mut Page) -> u16 {
    put_bytes(rt, page, b"c", &[7; 2000]);
    cut_after(rt, page)
}

#[test]
fn rows_are_cut_near_half_of_their_load(rt: HostRuntime) {
    let forty = b"abcdefghijklmnopqrstuvwxyzABCDEFGHIJKLMN";
    let half = cut_after(&rt, &lettered(&rt, forty));
    ensure(&rt, half == 20, "half of forty rows");
    let before = cut_with_huge(&rt, &mut lettered(&rt, b"abde"));
    ensure(&rt, before == 2, "two rows before the huge one");
}

/// Moves the rows from that key on, or all of them, to the other page, which has none.
fn move_to<R: AllocGlobal + Abort>(rt: &R, page: &mut Page, from: Option<&[u8]>, to: &mut Page) {
    ensure(rt, page.head().level == to.head().level, "one level");
    ensure(rt, page.head().fields == to.head().fields, "as many fields");
    ensure(rt, to.count() == 0, "no rows");
    let moved = if let Some(field) = from {
        let first = place_at(rt, page, field).expect(rt, "a row");
        page.move_tail(first, to)
    } else {
        ensure(rt, page.load() <= 16252, "room for all");
        page.is_in_order();
        page.move_all(to)
    };
    moved.expect(rt, "memory");
}

/// The rows of c, a and b go to the other page, c back, and then a and b.
fn move_about<R: AllocGlobal + Abort>(rt: &R, page: &mut Page, to: &mut Page) {
    move_to(rt, page, Some(b"a"), to);
    assert_letters(rt, to, b"abc");
    move_to(rt, to, Some(b"c"), page);
    assert_letters(rt, page, b"c");
    assert_letters(rt, to, b"ab");
    take_out(rt, page, b"c");
    move_to(rt, to, None, page);
    assert_letters(rt, page, b"ab");
}

#[test]
fn rows_move_from_page_to_page(rt: HostRuntime) {
    move_about(&rt, &mut lettered(&rt, b"cab"), &mut page_of(&rt, 0));
}

/// The rows get new places; the page is saved, a row goes, and it is restored.
fn renew<R: AllocGlobal + Abort>(rt: &R, page: &mut Page) {
    let mut copy = PageCopy::new(rt.alloc()).expect(rt, "a copy");
    page.reorganise(&mut copy).expect(rt, "memory");
    assert_letters(rt, page, b"abc");
    page.save(&mut copy).expect(rt, "memory");
    take_out(rt, page, b"a");
    page.restore(&mut copy);
    assert_letters(rt, page, b"abc");
}

#[test]
fn a_page_is_reorganised_and_restored(rt: HostRuntime) {
    renew(&rt, &mut lettered(&rt, b"cab"));
}

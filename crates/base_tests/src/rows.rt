//! The largest row in a buffer, and rows of one list in another.
use crate::setup::{MEMORY, has_fields, key_of};
use key_tuple::{MAX_KEY_BYTES, MAX_VALUE_BYTES};
use map_history::{RowBuf, Rows};
use std::process::Abort;

/// A buffer that is filled has these fields and this value.
fn fills<R: AllocGlobal + Abort>(rt: &R, out: &mut RowBuf, parts: &[&[u8]], value: &[u8]) -> bool {
    assert!(rt; value.len() <= MAX_VALUE_BYTES);
    out.fill(&key_of(rt, parts), value);
    has_fields(out, parts) && out.value() == value
}

#[test]
fn a_buffer_takes_the_largest_row_and_a_smaller_one(rt: HostRuntime) {
    let mut out = RowBuf::new(rt.alloc()).expect(&rt, MEMORY);
    assert!(rt;
        fills(&rt, &mut out, &[&[7; MAX_KEY_BYTES]], &[9; MAX_VALUE_BYTES])
            && fills(&rt, &mut out, &[b"a", b"", b"b"], b"x")
    );
}

fn add_row<R: AllocGlobal + Abort>(rt: &R, rows: &mut Rows, parts: &[&[u8]], value: &[u8]) {
    rows.push(&key_of(rt, parts), value).expect(rt, MEMORY);
}

fn two_rows<R: AllocGlobal + Abort>(rt: &R) -> Rows {
    let mut rows = Rows::new(rt.alloc());
    add_row(rt, &mut rows, &[b"a", b""], b"one");
    add_row(rt, &mut rows, &[b"b"], b"");
    rows
}

/// Each row of the list, pushed from there.
fn copy_of<R: AllocGlobal + Abort>(rt: &R, rows: &Rows) -> Rows {
    let mut more = Rows::new(rt.alloc());
    for i in 0..rows.count() {
        let row = rows.row(i);
        more.push(&row, row.value()).expect(rt, MEMORY);
    }
    more
}

/// There are so many rows, and the last of them has these fields and this value.
fn ends_with(rows: &Rows, count: usize, parts: &[&[u8]], value: &[u8]) -> bool {
    if rows.count() != count || count == 0 {
        return false;
    }
    let row = rows.row(count - 1);
    has_fields(&row, parts) && row.value() == value
}

/// The two rows are there, then the first of them, and then none.
fn are_cut(rows: &mut Rows) -> bool {
    rows.cut(9);
    let are_two = ends_with(rows, 2, &[b"b"], b"");
    rows.cut(1);
    let is_one = ends_with(rows, 1, &[b"a", b""], b"one");
    rows.cut(0);
    are_two && is_one && rows.count() == 0
}

#[test]
fn rows_are_kept_read_and_cut(rt: HostRuntime) {
    assert!(rt; are_cut(&mut copy_of(&rt, &two_rows(&rt))));
}

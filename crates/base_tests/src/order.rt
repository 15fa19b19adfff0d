//! How keys and tuples stand to one another.
use crate::setup::{key_of, tuple_of};
use key_tuple::{Blank, Fields, Key, compare, compare_whole, matches};
use std::cmp::Ordering;
use std::process::Abort;

/// The fields of keys, as the keys rise.
static ASCENDING: [&[&[u8]]; 6] = [
    &[b"", b"zz"],
    &[b"a"],
    &[b"a", b""],
    &[b"a", b"\0"],
    &[b"ab", b""],
    &[b"b"],
];

/// A tuple, a key, how the tuple stands to the key's first fields, and how far they agree.
type Agreed = (
    &'static [&'static [u8]],
    &'static [&'static [u8]],
    Ordering,
    (u8, u16),
);

static AGREED: [Agreed; 8] = [
    (&[], &[b"a", b"b"], Ordering::Equal, (0, 0)),
    (&[b"a"], &[b"a", b"b"], Ordering::Equal, (1, 0)),
    (&[b"a", b"b"], &[b"a", b"b"], Ordering::Equal, (2, 0)),
    (&[b"a"], &[b"ab", b"b"], Ordering::Less, (0, 1)),
    (&[b"abd"], &[b"abc", b"b"], Ordering::Greater, (0, 2)),
    (&[b"a", b"xz"], &[b"a", b"xy"], Ordering::Greater, (1, 1)),
    (&[b"a", b""], &[b"a", b"\0"], Ordering::Less, (1, 0)),
    (&[b"b", b"xy"], &[b"a", b"xy"], Ordering::Greater, (0, 0)),
];

#[test]
fn a_shorter_field_comes_first(rt: HostRuntime) {
    for (place, parts) in ASCENDING.iter().enumerate() {
        let key = key_of(&rt, parts);
        assert!(rt; is_above_blanks(&key) && stands_at(&rt, place, &key));
    }
}

#[test]
fn tuples_and_keys_agree_so_far(rt: HostRuntime) {
    for row in AGREED.iter() {
        assert!(rt; agree(&rt, row));
    }
}

// A tuple stands to a key's first fields so, and they agree so far.
fn agree<R: AllocGlobal + Abort>(rt: &R, row: &Agreed) -> bool {
    let (tuple, key, order, (fields, bytes)) = row;
    let tuple = tuple_of(rt, tuple);
    let key = tuple_of(rt, key);
    assert!(rt; tuple.count() <= key.count());
    let agreed = matches(&tuple, &key);
    compare(&tuple, &key) == *order && agreed.fields == *fields && agreed.bytes == *bytes
}

// A key begins with no fields, and comes after one empty field.
fn is_above_blanks(key: &Key) -> bool {
    compare(&Blank { count: 0 }, key) == Ordering::Equal
        && compare_whole(&Blank { count: 1 }, key) == Ordering::Less
}

// Each key stands to the key of this place as their places do.
fn stands_at<R: AllocGlobal + Abort>(rt: &R, place: usize, right: &Key) -> bool {
    for (other, left) in ASCENDING.iter().enumerate() {
        if !stand_as(&key_of(rt, left), right, other.cmp(&place)) {
            return false;
        }
    }
    true
}

fn stand_as(left: &Key, right: &Key, order: Ordering) -> bool {
    compare_whole(left, right) == order
        && (*left < *right) == (order == Ordering::Less)
        && (left.tuple() == right.tuple()) == (order == Ordering::Equal)
}

//! How a tuple stands to a key with which it is known to agree so far.
ghost use Rattle.std.specs.Prelude.{◌≡◌, ◌+◌, ◌≤◌, ◌<◌, true, length, drop};
ghost use Rattle.std.specs.Ordering.{nat_cmp};
ghost use Rattle.std.specs.Cmp.Lexicographic.{slice_cmp};
ghost use Rattle.key_tuple.specs.Order.{tuple_cmp};
ghost use Rattle.key_tuple.specs.Figures.{matching, equal_bytes};
ghost use Rattle.page_search.specs.Agreeing.{AgreesTo};

use key_tuple::{Fields, Match};
use std::cmp::Ordering;

/// How a tuple stands to a key, and how far they agree.
#[derive(Clone, Copy)]
pub(crate) struct Comparison {
    /// How the tuple stands to the key.
    pub(crate) order: Ordering,
    /// How far it agrees with the key.
    pub(crate) figures: Match,
}

/// How bytes stand to others, and how many first ones are equal.
#[derive(Clone, Copy)]
struct BytesOrder {
    /// How they stand to the others.
    order: Ordering,
    /// How many first ones are equal.
    equal: u16,
}

/// Compares a tuple with a key, with which it agrees as far as `from` says.
#[inline(always)]
pub(crate) fn compare_from<A: Fields, B: Fields>(tuple: &A, key: &B, from: Match) -> Comparison
    requires long { length (A.fields_of tuple.now) ≤ length (B.fields_of key.now) }
    requires agrees { AgreesTo (A.fields_of tuple.now) (B.fields_of key.now) from }
    ensures order { result.order ≡ tuple_cmp (A.fields_of tuple.now) (B.fields_of key.now) }
    ensures figures { result.figures ≡ matching (A.fields_of tuple.now) (B.fields_of key.now) }
{
    let mut start = from.bytes;
    for i in from.fields..tuple.count() {
        let left = tuple.field(i);
        let right = key.field(i);
        let found = order_from(left, right, start);
        if found.order != Ordering::Equal {
            return Comparison {
                order: found.order,
                figures: Match {
                    fields: i,
                    bytes: found.equal,
                },
            };
        }
        start = 0;
    }
    Comparison {
        order: Ordering::Equal,
        figures: Match {
            fields: tuple.count(),
            bytes: 0,
        },
    }
}

/// How bytes stand to others, and how many first ones are equal, of which the first `start` are
/// known to be.
#[inline(always)]
fn order_from(left: &[u8], right: &[u8], start: u16) -> BytesOrder
    requires short { length left.now < 65536 }
    requires start { start ≤ equal_bytes left.now right.now }
    ensures order { result.order ≡ slice_cmp nat_cmp left.now right.now }
    ensures equal { result.equal ≡ equal_bytes left.now right.now }
{
    let most = left.len().min(right.len());
    let near = skip_fours(left, right, usize::from(start), most);
    for i in near..most {
        if left[i] != right[i] {
            return BytesOrder {
                order: left[i].cmp(&right[i]),
                equal: i as u16,
            };
        }
    }
    BytesOrder {
        order: left.len().cmp(&right.len()),
        equal: most as u16,
    }
}

/// Goes on by fours while the bytes are equal.
#[inline(always)]
fn skip_fours(left: &[u8], right: &[u8], start: usize, most: usize) -> usize
    requires short { length left.now < 65536 }
    requires left { most ≤ length left.now }
    requires right { most ≤ length right.now }
    requires start { start ≤ equal_bytes left.now right.now }
    ensures { result ≤ equal_bytes left.now right.now }
{
    let mut at = start;
    while at + 4 <= most && has_four(left, right, at) {
        at += 4;
    }
    at
}

/// Four bytes from there on are equal.
#[inline(always)]
fn has_four(left: &[u8], right: &[u8], at: usize) -> bool
    requires left { at + 4 ≤ length left.now }
    requires right { at + 4 ≤ length right.now }
    ensures { result ≡ true → 4 ≤ equal_bytes (drop at left.now) (drop at right.now) }
{
    if left[at] != right[at] {
        return false;
    }
    if left[at + 1] != right[at + 1] {
        return false;
    }
    if left[at + 2] != right[at + 2] {
        return false;
    }
    left[at + 3] == right[at + 3]
}

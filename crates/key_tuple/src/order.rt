//! The order of tuples and keys, and how far two of them agree.
ghost use Rattle.std.specs.Prelude.{◌≡◌, ◌<◌, ◌≤◌, length};
ghost use Rattle.std.specs.Cmp.Lexicographic.{slice_cmp};
ghost use Rattle.std.specs.Ordering.{nat_cmp};
ghost use Rattle.key_tuple.specs.Order.{tuple_cmp, key_cmp};
ghost use Rattle.key_tuple.specs.KeyPlace.{At, cut_of};
ghost use Rattle.key_tuple.specs.Figures.{matching, equal_bytes, equal_fields};

use crate::fields::Fields;
use crate::mode::{Match, Mode};
use std::cmp::Ordering;

/// How a tuple stands to the first fields of a key: field by field, each byte by byte, a proper
/// prefix first. A tuple stands equal to each key that begins with it.
pub fn compare<A: Fields, B: Fields>(tuple: &A, key: &B) -> Ordering
    requires { length (A.fields_of tuple.now) ≤ length (B.fields_of key.now) }
    ensures { result ≡ tuple_cmp (A.fields_of tuple.now) (B.fields_of key.now) }
{
    for i in 0..tuple.count() {
        let order = compare_bytes(tuple.field(i), key.field(i));
        if order != Ordering::Equal {
            return order;
        }
    }
    Ordering::Equal
}

/// Whether the key is past the cut that a search with this mode makes.
#[tactic(auto, unfolding(crate::specs::KeyPlace::not_below, crate::specs::KeyPlace::above))]
pub fn is_past<A: Fields, B: Fields>(mode: Mode, tuple: &A, key: &B) -> bool
    requires { length (A.fields_of tuple.now) ≤ length (B.fields_of key.now) }
    ensures { result ≡ cut_of mode (A.fields_of tuple.now) (At (B.fields_of key.now)) }
{
    let order = compare(tuple, key);
    match mode {
        Mode::Ge | Mode::L => !order.is_gt(),
        Mode::G | Mode::Le => order.is_lt(),
    }
}

/// How two whole keys stand to each other: where one begins with the other, the shorter comes first.
pub fn compare_whole<A: Fields, B: Fields>(left: &A, right: &B) -> Ordering
    ensures { result ≡ key_cmp (A.fields_of left.now) (B.fields_of right.now) }
{
    for i in 0..left.count().min(right.count()) {
        let order = compare_bytes(left.field(i), right.field(i));
        if order != Ordering::Equal {
            return order;
        }
    }
    left.count().cmp(&right.count())
}

/// How many first fields of the tuple and the key are equal, and how many first bytes of the tuple's
/// next field, 0 where it has none.
pub fn matches<A: Fields, B: Fields>(tuple: &A, key: &B) -> Match
    requires { length (A.fields_of tuple.now) ≤ length (B.fields_of key.now) }
    ensures { result ≡ matching (A.fields_of tuple.now) (B.fields_of key.now) }
{
    let fields = shared_fields(tuple, key);
    let bytes = if fields == tuple.count() {
        0
    } else {
        shared_bytes(tuple.field(fields), key.field(fields))
    };
    Match { fields, bytes }
}

fn shared_fields<A: Fields, B: Fields>(tuple: &A, key: &B) -> u8
    requires { length (A.fields_of tuple.now) ≤ length (B.fields_of key.now) }
    ensures equal { result ≡ equal_fields (A.fields_of tuple.now) (B.fields_of key.now) }
    ensures within { result ≤ length (A.fields_of tuple.now) }
{
    for i in 0..tuple.count() {
        if tuple.field(i) != key.field(i) {
            return i;
        }
    }
    tuple.count()
}

/// How two fields stand to each other: byte by byte, a proper prefix first. Fields are short, so a
/// plain loop takes less time than the standard comparison, which looks for long equal parts.
fn compare_bytes(left: &[u8], right: &[u8]) -> Ordering
    ensures { result ≡ slice_cmp nat_cmp left.now right.now }
{
    for i in 0..left.len().min(right.len()) {
        if left[i] != right[i] {
            return left[i].cmp(&right[i]);
        }
    }
    left.len().cmp(&right.len())
}

fn shared_bytes(left: &[u8], right: &[u8]) -> u16
    requires { length left.now < 65536 }
    ensures { result ≡ equal_bytes left.now right.now }
{
    let most = left.len().min(right.len());
    for i in 0..most {
        if left[i] != right[i] {
            return i as u16;
        }
    }
    most as u16
}

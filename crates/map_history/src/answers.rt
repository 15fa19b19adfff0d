//! What an ordered map of the program answers.
ghost use Rattle.std.specs.Prelude.{◌≡◌, ◌≢◌, false, is_some, if◌then◌else◌};
ghost use Rattle.std.specs.Option.{option_map};
ghost use Rattle.key_tuple.specs.Order.{tuple_cmp};
ghost use Rattle.key_tuple.specs.KeyPlace.{At, cut_of};
ghost use Rattle.map_history.specs.Map.{value_at};
ghost use Rattle.map_history.specs.Operation.{operation_of, is_scan};
ghost use Rattle.map_history.specs.Operation as asked;
ghost use Rattle.map_history.specs.Pairs.{pairs, pair_by};
ghost use Rattle.map_history.specs.Reply.{first_after, last_before};
ghost use Rattle.map_history.specs.Told.{Says};

use crate::op::Op;
use crate::reply::Reply;
use crate::row_buf::RowBuf;
use key_tuple::{Fields, Key, Mode, Tuple, Value, compare, compare_whole};
use std::cmp::Ordering;
use std::collections::BTreeMap;

/// A row of the map, lent.
type Entry<'a> = (&'a Key, &'a Value);

/// What the map replies to an operation that isn't a scan. A found row is put in `out`, which else stays.
/// A put, a set and a del are judged, and not made.
pub fn answer(map: &BTreeMap<Key, Value>, op: &Op, out: &mut RowBuf) -> Reply
    requires { is_scan (operation_of op.now).ask ≡ false }
    ensures said { Says (pairs map.now) (operation_of op.now).ask result out.new }
    ensures kept { result ≢ Reply.Found → out.new ≡ out.old }
{
    match op {
        Op::Get { key, .. } => get(map, key, out),
        Op::Put { key, .. } => put(map, key),
        Op::Set { key, .. } => set_or_del(map, key),
        Op::Del { key, .. } => set_or_del(map, key),
        Op::Seek { mode, tuple, .. } => seek(map, *mode, tuple, out),
        Op::Scan { .. } => Reply::Absent,
    }
}

fn get(map: &BTreeMap<Key, Value>, key: &Key, out: &mut RowBuf) -> Reply
    ensures said { Says (pairs map.now) (asked.Get key.now.tuple) result out.new }
    ensures kept { result ≢ Reply.Found → out.new ≡ out.old }
{
    match map.get(key) {
        Some(value) => found(key, value, out),
        None => Reply::Absent,
    }
}

fn put(map: &BTreeMap<Key, Value>, key: &Key) -> Reply
    ensures { let there = is_some (value_at key.now.tuple (pairs map.now)) in
        result ≡ (if there then Reply.Duplicate else Reply.Ok) }
{
    if map.contains_key(key) {
        Reply::Duplicate
    } else {
        Reply::Ok
    }
}

fn set_or_del(map: &BTreeMap<Key, Value>, key: &Key) -> Reply
    ensures { let there = is_some (value_at key.now.tuple (pairs map.now)) in
        result ≡ (if there then Reply.Ok else Reply.Absent) }
{
    if map.contains_key(key) {
        Reply::Ok
    } else {
        Reply::Absent
    }
}

fn seek(map: &BTreeMap<Key, Value>, mode: Mode, tuple: &Tuple, out: &mut RowBuf) -> Reply
    ensures said { Says (pairs map.now) (asked.Seek mode tuple.now.fields) result out.new }
    ensures kept { result ≢ Reply.Found → out.new ≡ out.old }
{
    let row = match mode {
        Mode::Ge | Mode::G => first_past(map, mode, tuple),
        Mode::Le | Mode::L => last_short(map, mode, tuple),
    };
    match row {
        Some((key, value)) => found(key, value, out),
        None => Reply::Absent,
    }
}

fn found(key: &Key, value: &Value, out: &mut RowBuf) -> Reply
    ensures reply { result ≡ Reply.Found }
    ensures key { out.new.key ≡ key.now.tuple }
    ensures value { out.new.value ≡ value.now }
{
    key.tuple().is_within_limits();
    out.fill(key, value.as_bytes());
    Reply::Found
}

/// The first row past the mode's cut.
fn first_past<'a>(map: &'a BTreeMap<Key, Value>, mode: Mode, tuple: &Tuple) -> Option<Entry<'a>>
    ensures { option_map pair_by result ≡ first_after (cut_of mode tuple.now.fields) (pairs map.now) }
{
    for (key, value) in map {
        if is_past(mode, tuple, key) {
            return Some((key, value));
        }
    }
    None
}

/// The last row that isn't past the mode's cut.
fn last_short<'a>(map: &'a BTreeMap<Key, Value>, mode: Mode, tuple: &Tuple) -> Option<Entry<'a>>
    ensures { option_map pair_by result ≡ last_before (cut_of mode tuple.now.fields) (pairs map.now) }
{
    let mut rows = map.iter();
    while let Some((key, value)) = rows.next_back() {
        if !is_past(mode, tuple, key) {
            return Some((key, value));
        }
    }
    None
}

/// The key is past the mode's cut.
fn is_past(mode: Mode, tuple: &Tuple, key: &Key) -> bool
    ensures { result ≡ cut_of mode tuple.now.fields (At key.now.tuple) }
{
    let order = stand(tuple, key);
    match mode {
        Mode::Ge | Mode::L => !order.is_gt(),
        Mode::G | Mode::Le => order.is_lt(),
    }
}

/// How a tuple of any length stands to a key.
fn stand(tuple: &Tuple, key: &Key) -> Ordering
    ensures { result ≡ tuple_cmp tuple.now.fields key.now.tuple }
{
    if tuple.count() <= key.count() {
        compare(tuple, key)
    } else {
        compare_whole(tuple, key)
    }
}

//! The row that a search asks for, found by a range of the map.
ghost use Rattle.std.specs.Prelude.{◌≡◌, ◌<◌, length, IfOk, IfSome, option_map};
ghost use Rattle.key_tuple.specs.KeyPlace.{At, before, above, not_below, cut_of};
ghost use Rattle.key_tuple.specs.Limits.{IsWithinLimits};
ghost use Rattle.map_history.specs.Pairs.{pairs, pair_by};
ghost use Rattle.map_history.specs.Reply.{first_after, last_before, sought};

use crate::bounds::{byte_count, lengthened_key, padded_key, whole_key};
use key_tuple::{Key, MAX_KEY_BYTES, Mode, NoMemory, Tuple, Value};
use map_history::{first_from, last_below, pairs_ascend};
use std::alloc::Global;
use std::collections::BTreeMap;
use std::ops::Bound;

/// A row of the map, lent.
type Entry<'a> = (&'a Key, &'a Value);

/// The row that a search with this mode asks for, if there is one. The tuple may have fewer fields
/// than the keys, but not none, as `count` tells. Only the key at which the map is cut takes memory.
pub fn sought<'a>(
    alloc: Global,
    map: &'a BTreeMap<Key, Value>,
    mode: Mode,
    tuple: &Tuple,
) -> Result<Option<Entry<'a>>, NoMemory>
    requires { 0 < length tuple.now.fields }
    ensures { IfOk result (λ row.
        option_map pair_by row ≡ sought mode tuple.now.fields (pairs map.now)) }
{
    match mode {
        Mode::Ge | Mode::G => first_past(alloc, map, mode, tuple),
        Mode::Le | Mode::L => last_short(alloc, map, mode, tuple),
    }
}

/// The last row that isn't past the mode's cut: the one before the first that is.
fn last_short<'a>(
    alloc: Global,
    map: &'a BTreeMap<Key, Value>,
    mode: Mode,
    tuple: &Tuple,
) -> Result<Option<Entry<'a>>, NoMemory>
    requires { 0 < length tuple.now.fields }
    ensures { IfOk result (λ row.
        option_map pair_by row ≡ last_before (cut_of mode tuple.now.fields) (pairs map.now)) }
{
    pairs_ascend(map);
    match first_past(alloc, map, mode, tuple)? {
        Some((key, _)) => Ok(last_below(map, key)),
        None => Ok(map.iter().next_back()),
    }
}

/// The first row past the mode's cut.
fn first_past<'a>(
    alloc: Global,
    map: &'a BTreeMap<Key, Value>,
    mode: Mode,
    tuple: &Tuple,
) -> Result<Option<Entry<'a>>, NoMemory>
    requires { 0 < length tuple.now.fields }
    ensures { IfOk result (λ row.
        option_map pair_by row ≡ first_after (cut_of mode tuple.now.fields) (pairs map.now)) }
{
    match mode {
        Mode::Ge | Mode::L => first_not_below(alloc, map, tuple),
        Mode::G | Mode::Le => first_above(alloc, map, tuple),
    }
}

fn first_not_below<'a>(
    alloc: Global,
    map: &'a BTreeMap<Key, Value>,
    tuple: &Tuple,
) -> Result<Option<Entry<'a>>, NoMemory>
    requires { 0 < length tuple.now.fields }
    ensures { IfOk result (λ row.
        option_map pair_by row ≡ first_after (not_below tuple.now.fields) (pairs map.now)) }
{
    let key = whole_key(alloc, tuple)?;
    Ok(first_from(map, &key))
}

fn first_above<'a>(
    alloc: Global,
    map: &'a BTreeMap<Key, Value>,
    tuple: &Tuple,
) -> Result<Option<Entry<'a>>, NoMemory>
    requires { 0 < length tuple.now.fields }
    ensures { IfOk result (λ row.
        option_map pair_by row ≡ first_after (above tuple.now.fields) (pairs map.now)) }
{
    if byte_count(tuple) < MAX_KEY_BYTES {
        let key = lengthened_key(alloc, tuple)?;
        return Ok(first_from(map, &key));
    }
    // No key has more bytes, so all that begin with the tuple have empty fields behind its own.
    let key = padded_key(alloc, tuple)?;
    Ok(first_behind(map, &key))
}

/// The first row whose key is after this one.
fn first_behind<'a>(map: &'a BTreeMap<Key, Value>, key: &Key) -> Option<Entry<'a>>
    ensures row { option_map pair_by result ≡ first_after (before (At key.now.tuple)) (pairs map.now) }
    ensures limits { IfSome result (λ row. IsWithinLimits row.0.now.tuple) }
{
    let (found, value) = map.range((Bound::Excluded(key), Bound::Unbounded)).next()?;
    found.tuple().is_within_limits();
    Some((found, value))
}

//! The rows of an ordered map around a key, each found without a walk.
ghost use Rattle.std.specs.Prelude.{◌≡◌, option_map};
ghost use Rattle.map_history.specs.Pairs.{pairs, pair_by};
ghost use Rattle.map_history.specs.Ranges.{row_from, row_below};

use key_tuple::{Key, Value};
use std::collections::BTreeMap;

/// The first row whose key isn't before this one.
pub fn first_from<'a>(map: &'a BTreeMap<Key, Value>, key: &Key) -> Option<(&'a Key, &'a Value)>
    ensures { option_map pair_by result ≡ row_from key.now.tuple (pairs map.now) }
{
    map.range(key..).next()
}

/// The last row whose key is before this one.
pub fn last_below<'a>(map: &'a BTreeMap<Key, Value>, key: &Key) -> Option<(&'a Key, &'a Value)>
    ensures { option_map pair_by result ≡ row_below key.now.tuple (pairs map.now) }
{
    map.range(..key).next_back()
}

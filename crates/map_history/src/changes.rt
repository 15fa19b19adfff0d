//! A change, made on an ordered map of the program.
ghost use Rattle.std.specs.Prelude.{◌≡◌, OnOk, OnErr};
ghost use Rattle.map_history.specs.Map.{Ascends, after_change, is_allowed};
ghost use Rattle.map_history.specs.Operation.{change_of, operation_of, after_ask};
ghost use Rattle.map_history.specs.Pairs.{pairs};
ghost use Rattle.map_history.specs.Map as by;

use crate::change::Change;
use crate::op::Op;
use key_tuple::{Key, NoMemory, Value};
use std::alloc::AllocError;
use std::collections::BTreeMap;

/// Whether the map allows a change: a put's key isn't there, and that of a set or a del is.
pub fn is_allowed(map: &BTreeMap<Key, Value>, change: &Change) -> bool
    ensures { result ≡ is_allowed (pairs map.now) (change_of change.now) }
{
    match change {
        Change::Put { key, .. } => !map.contains_key(key),
        Change::Set { key, .. } | Change::Del { key } => map.contains_key(key),
    }
}

/// Makes a change. One that the map doesn't allow leaves it: a put of a key that is there, a set or a
/// del of one that isn't. After `NoMemory` the map is as before.
pub fn apply(map: &mut BTreeMap<Key, Value>, change: &Change) -> Result<(), NoMemory>
    ensures ok { OnOk result (pairs map.new ≡ after_change (pairs map.old) (change_of change.now)) }
    ensures err { OnErr result (pairs map.new ≡ pairs map.old) }
{
    match change {
        Change::Put { key, value } => put(map, key, value)?,
        Change::Set { key, value } => set(map, key, value)?,
        Change::Del { key } => del(map, key),
    }
    Ok(())
}

/// Makes the change that an operation asks for, if it asks for one, as `apply` does.
pub fn make(map: &mut BTreeMap<Key, Value>, op: &Op) -> Result<(), NoMemory>
    ensures ok { OnOk result (pairs map.new ≡ after_ask (pairs map.old) (operation_of op.now).ask) }
    ensures err { OnErr result (pairs map.new ≡ pairs map.old) }
{
    match op {
        Op::Put { key, value, .. } => put(map, key, value)?,
        Op::Set { key, value, .. } => set(map, key, value)?,
        Op::Del { key, .. } => del(map, key),
        Op::Get { .. } | Op::Seek { .. } | Op::Scan { .. } => {}
    }
    Ok(())
}

fn put(map: &mut BTreeMap<Key, Value>, key: &Key, value: &Value) -> Result<(), AllocError>
    ensures ok { let change = by.Put key.now.tuple value.now in
        OnOk result (pairs map.new ≡ after_change (pairs map.old) change) }
    ensures err { OnErr result (pairs map.new ≡ pairs map.old) }
{
    if !map.contains_key(key) {
        map.insert(key.clone()?, value.clone()?)?;
    }
    Ok(())
}

fn set(map: &mut BTreeMap<Key, Value>, key: &Key, value: &Value) -> Result<(), AllocError>
    ensures ok { let change = by.Set key.now.tuple value.now in
        OnOk result (pairs map.new ≡ after_change (pairs map.old) change) }
    ensures err { OnErr result (pairs map.new ≡ pairs map.old) }
{
    if let Some(slot) = map.get_mut(key) {
        *slot = value.clone()?;
    }
    Ok(())
}

fn del(map: &mut BTreeMap<Key, Value>, key: &Key)
    ensures { pairs map.new ≡ after_change (pairs map.old) (by.Del key.now.tuple) }
{
    pairs_ascend(map);
    map.remove(key);
}

/// The rows of a map of the program rise by their keys.
pub fn pairs_ascend(map: &BTreeMap<Key, Value>)
    ensures { Ascends (pairs map.now) }
{
    let _count = map.len();
}

//! The merge of the lanes' logs.
ghost use Rattle.std.specs.Prelude.{◌≡◌, IfOk, OnOk, replicate, [], map};
ghost use Rattle.std.specs.List.{AllZip};
ghost use Rattle.change_log.specs.Log.{note_of};
ghost use Rattle.change_log.specs.Merge.{note_lists, AreSpread, IsSorted, AreMerges};

use crate::change::LaneChange;
use crate::lane_log::LaneLog;
use key_tuple::NoMemory;
use std::alloc::{AllocError, Global};

/// For each of so many indexes, the changes of it that the logs hold, by ascending number.
pub fn merge<'a>(
    alloc: Global,
    logs: &[LaneLog<'a>],
    indexes: usize,
) -> Result<Vec<Vec<LaneChange<'a>>>, NoMemory>
    ensures { IfOk result (λ all. AreMerges indexes logs.now (note_lists all.items)) }
{
    let mut lists = spread(alloc, logs, indexes)?;
    sort_each(&mut lists)?;
    Ok(lists)
}

/// The changes of each index, in the order of the logs.
fn spread<'a>(
    alloc: Global,
    logs: &[LaneLog<'a>],
    indexes: usize,
) -> Result<Vec<Vec<LaneChange<'a>>>, AllocError>
    ensures { IfOk result (λ lists. AreSpread indexes logs.now (note_lists lists.items)) }
{
    let mut lists = empty_lists(alloc, indexes)?;
    for log in logs {
        log.spread(&mut lists)?;
    }
    Ok(lists)
}

fn empty_lists<'a>(alloc: Global, count: usize) -> Result<Vec<Vec<LaneChange<'a>>>, AllocError>
    ensures { IfOk result (λ lists. note_lists lists.items ≡ replicate count []) }
{
    let mut lists = Vec::with_capacity(alloc, count)?;
    for _ in 0..count {
        lists.push_reserved(Vec::new(alloc));
    }
    Ok(lists)
}

/// Each list by ascending number.
fn sort_each(lists: &mut Vec<Vec<LaneChange<'_>>>) -> Result<(), AllocError>
    ensures { OnOk result
        (AllZip IsSorted (note_lists lists.old.items) (note_lists lists.new.items)) }
{
    for i in 0..lists.len() {
        sort(&mut lists[i])?;
    }
    Ok(())
}

fn sort(list: &mut Vec<LaneChange<'_>>) -> Result<(), AllocError>
    ensures { OnOk result (IsSorted (map note_of list.old.items) (map note_of list.new.items)) }
{
    list.sort_by_key(|change| change.number)?;
    Ok(())
}

//! A scan, from its first leaf to its end.
ghost use Rattle.std.specs.Prelude.{◌≡◌, ◌<◌, ◌≤◌, length, OnOk, OnErr};
ghost use Rattle.latch_space.specs.Passes.{view, count, IsSamePass};
ghost use Rattle.latch_space.specs.Spaces.{IsPassOf};
ghost use Rattle.search_info.specs.Passes.{knowledge, HasUnique, IsLearnPassOf, IsSameLearnPass};
ghost use Rattle.forest_law.specs.State.{fields_for};
ghost use Rattle.buffer_pool.specs.Forests.{IsForest};
ghost use Rattle.tree_cursor.specs.Pieces.{fields_lent, count_lent};
ghost use Rattle.index_scans.specs.Scans.{TellsOfScan, RunsScan, TriesForScan, StopsScan};

use crate::finding::find_first;
use crate::scan_call::ScanCall;
use forest_world::{ForestPass, ForestSpace, fits};
use key_tuple::{NoMemory, Tuple};
use map_history::{Piece, Rows};
use search_info::{LearnPass, Learner};
use std::alloc::Global;
use std::sync::Wait;

/// The rows of an index from FROM on that are below TO, in the order of keys, at most `limit` of them.
/// The lists are emptied first. Then `pieces` gets the scan's pieces, and `rows` the rows of all of them,
/// one behind the other. After `NoMemory` they have the pieces that were said, and all of their rows.
pub fn scan_rows<R: Wait>(
    alloc: Global,
    space: &ForestSpace,
    pass: &mut ForestPass,
    learner: &Learner,
    learn: &mut LearnPass,
    index: u32,
    from: &Tuple,
    to: Option<&Tuple>,
    limit: u32,
    pieces: &mut Vec<Piece>,
    rows: &mut Rows,
    wait: &R,
) -> Result<(), NoMemory>
    requires own { IsForest space.now × IsPassOf space.now pass.old }
    requires learner { IsLearnPassOf learner.now learn.old }
    requires index { index < space.now.terms.shape.indexes }
    requires unique { HasUnique learner.now index (fields_for space.now.terms.shape index) }
    requires from { length from.now.fields ≤ fields_for space.now.terms.shape index }
    requires to { count_lent to ≤ fields_for space.now.terms.shape index }
    requires limit { 0 < limit }
    requires nothing { count pass.old ≡ 0 }
    ensures own { IsSamePass pass.old pass.new × IsPassOf space.now pass.new }
    ensures learner { IsSameLearnPass learn.old learn.new × IsLearnPassOf learner.now learn.new }
    ensures nothing { count pass.new ≡ 0 }
    ensures told { OnOk result (TellsOfScan (view pass.old) (view pass.new) (knowledge learn.new)
        index from.now.fields (fields_lent to.entry) limit pieces.new.items rows.new) }
    ensures runs { OnOk result (RunsScan pass.old (knowledge learn.old) index from.now.fields
        (fields_lent to.entry) limit pieces.new.items rows.new pass.new (knowledge learn.new)) }
    ensures tried { TriesForScan (knowledge learn.old) index pieces.new.items
        (knowledge learn.new) }
    ensures err { OnErr result (StopsScan (view pass.old) (view pass.new) (knowledge learn.new)
        index from.now.fields (fields_lent to.entry) limit pieces.new.items rows.new) }
{
    pieces.clear();
    rows.cut(0);
    pieces.reserve(1)?;
    let first = find_first(space, pass, learner, learn, index, from, wait);
    let call = ScanCall {
        space,
        index,
        from,
        to,
        limit,
        wait,
    };
    match call.take_first(alloc, pass, &first, pieces, rows)? {
        Some(cursor) => {
            let done = call.go_on(pass, cursor, pieces, rows);
            fits(pass);
            done
        }
        None => {
            fits(pass);
            Ok(())
        }
    }
}

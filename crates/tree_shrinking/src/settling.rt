//! A merge is made in hand, and made known in one step.
ghost use Rattle.std.specs.Prelude.{◌<◌, ◌≤◌, ◌+◌, ◌^◌, OnOk, OnErr};
ghost use Rattle.latch_space.specs.declared.TheConstants.{MAX_HELD};
ghost use Rattle.latch_space.specs.Has.{IsKnown};
ghost use Rattle.latch_space.specs.Passes.{view, count, IsSamePass};
ghost use Rattle.latch_space.specs.Spaces.{IsPassOf};
ghost use Rattle.forest_world.specs.Held.{shape_of_pass};
ghost use Rattle.call_law.specs.Hands.{HoldsNoOutside, HoldsNoPart};
ghost use Rattle.buffer_pool.specs.Calls.{GetsNothing};
ghost use Rattle.buffer_pool.specs.Forests.{IsForest, IsFittedTree};
ghost use Rattle.tree_smo.specs.Remakes.{IsAsBefore};
ghost use Rattle.tree_shrinking.specs.Hashing.{HoldsTheirPart};
ghost use Rattle.tree_shrinking.specs.MergePlans.{HoldsMerge, MakesMerge, MergesHashed};

use crate::hands::join_halves;
use crate::hashing::hashed_index;
use buffer_pool::{frame, give_part_if, hold_part_for};
use forest_world::{ForestPass, ForestSpace, fits};
use key_tuple::NoMemory;
use std::sync::Wait;
use tree_smo::{SplitBlocks, head_of, keep_up_between, laws_of_moves, relink_behind};

/// Merges two pages in hand, with the page behind them in hand too, in the block `next`, where there
/// is one. The partition of their index is held meanwhile, if one of both is hashed. After `NoMemory`
/// all is as before.
pub(crate) fn merge_hashed<R: Wait>(
    space: &ForestSpace,
    pass: &mut ForestPass,
    at: SplitBlocks,
    index: u32,
    next: Option<u32>,
    wait: &R,
) -> Result<(), NoMemory>
    requires own { IsForest space.now × IsPassOf space.now pass.old }
    requires held { HoldsMerge (view pass.old) at index next }
    requires inside { HoldsNoOutside (view pass.old) }
    requires parts { HoldsNoPart (view pass.old) }
    requires known { IsKnown pass.old }
    requires few { (shape_of_pass pass.old).pages < 2 ^ 32 }
    requires room { count pass.old + 2 ≤ MAX_HELD }
    ensures own { IsSamePass pass.old pass.new × IsPassOf space.now pass.new }
    ensures ok { OnOk result (MakesMerge pass.old at index next pass.new) }
    ensures err { OnErr result (GetsNothing pass.old pass.new) }
    ensures fits { IsFittedTree (view pass.new) }
{
    fits(pass);
    let hashed = hashed_index(space, pass, at.right, at.child);
    let part = hold_part_for(space, pass, hashed, wait);
    let made = make_merge(space, pass, at, index, next, wait);
    give_part_if(space, pass, part);
    made
}

/// The same while that partition is held.
fn make_merge<R: Wait>(
    space: &ForestSpace,
    pass: &mut ForestPass,
    at: SplitBlocks,
    index: u32,
    next: Option<u32>,
    wait: &R,
) -> Result<(), NoMemory>
    requires own { IsForest space.now × IsPassOf space.now pass.old }
    requires held { HoldsMerge (view pass.old) at index next }
    requires inside { HoldsNoOutside (view pass.old) }
    requires hash { HoldsTheirPart (view pass.old) at.right at.child }
    requires known { IsKnown pass.old }
    requires few { (shape_of_pass pass.old).pages < 2 ^ 32 }
    requires room { count pass.old < MAX_HELD }
    ensures own { IsSamePass pass.old pass.new × IsPassOf space.now pass.new }
    ensures ok { OnOk result (MergesHashed pass.old at index next pass.new) }
    ensures err { OnErr result (IsAsBefore pass.old pass.new) }
    ensures fits { IsFittedTree (view pass.new) }
{
    let _ = index;
    fits(pass);
    laws_of_moves();
    let left = head_of(frame(space, pass, at.child)).number;
    join_halves(space, pass, at)?;
    keep_up_between(space, pass, at.right, at.child, wait);
    relink_behind(space, pass, next, left);
    space.settle(pass);
    Ok(())
}

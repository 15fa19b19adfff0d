//! A root and its only child, in hand.
ghost use Rattle.std.specs.Prelude.{◌<◌, ◌≤◌, ◌+◌, ◌^◌, OnOk, OnErr};
ghost use Rattle.latch_space.specs.declared.TheConstants.{MAX_HELD};
ghost use Rattle.latch_space.specs.Has.{IsKnown};
ghost use Rattle.latch_space.specs.Passes.{view, count, IsSamePass};
ghost use Rattle.latch_space.specs.Spaces.{IsPassOf};
ghost use Rattle.forest_world.specs.Held.{shape_of_pass};
ghost use Rattle.call_law.specs.Hands.{HoldsNoOutside, HoldsNoPart};
ghost use Rattle.buffer_pool.specs.Calls.{GetsNothing};
ghost use Rattle.buffer_pool.specs.Forests.{IsForest, IsFittedTree};
ghost use Rattle.tree_smo.specs.Remakes.{IsAsBefore};
ghost use Rattle.tree_shrinking.specs.Hashing.{HoldsTheirPart};
ghost use Rattle.tree_shrinking.specs.LiftHands.{SuitsSinking, SinksStoreys, SinksHashed};
ghost use Rattle.tree_shrinking.specs.Lifting.{CanLift, SinksRoot};

use crate::hashing::hashed_index;
use buffer_pool::{change_tree, frame_back, frame_out, give_part_if, hold_part_for, tree};
use forest_world::{ForestPass, ForestSpace, Tree, fits};
use key_tuple::NoMemory;
use std::alloc::Global;
use std::sync::Wait;
use tree_merging::lift_frames;
use tree_smo::{keep_up_between, laws_of_moves};

/// Gives a root in hand, in the block `root`, the rows of its only child, and makes that known with
/// the tree's height. The partition of the index is held meanwhile, if the child is hashed. After
/// `NoMemory` all is as before.
pub(crate) fn sink_hashed<R: Wait>(
    alloc: Global,
    space: &ForestSpace,
    pass: &mut ForestPass,
    index: u32,
    root: u32,
    child: u32,
    wait: &R,
) -> Result<(), NoMemory>
    requires own { IsForest space.now × IsPassOf space.now pass.old }
    requires index { index < (shape_of_pass pass.old).indexes }
    requires held { CanLift (view pass.old) index root child }
    requires inside { HoldsNoOutside (view pass.old) }
    requires parts { HoldsNoPart (view pass.old) }
    requires known { IsKnown pass.old }
    requires few { (shape_of_pass pass.old).pages < 2 ^ 32 }
    requires room { count pass.old + 2 ≤ MAX_HELD }
    ensures own { IsSamePass pass.old pass.new × IsPassOf space.now pass.new }
    ensures ok { OnOk result (SinksRoot pass.old index root child pass.new) }
    ensures err { OnErr result (GetsNothing pass.old pass.new) }
    ensures fits { IsFittedTree (view pass.new) }
{
    fits(pass);
    let hashed = hashed_index(space, pass, child, root);
    let part = hold_part_for(space, pass, hashed, wait);
    let made = sink_root(alloc, space, pass, index, root, child, wait);
    give_part_if(space, pass, part);
    made
}

/// The same while that partition is held.
fn sink_root<R: Wait>(
    alloc: Global,
    space: &ForestSpace,
    pass: &mut ForestPass,
    index: u32,
    root: u32,
    child: u32,
    wait: &R,
) -> Result<(), NoMemory>
    requires own { IsForest space.now × IsPassOf space.now pass.old }
    requires index { index < (shape_of_pass pass.old).indexes }
    requires held { CanLift (view pass.old) index root child }
    requires inside { HoldsNoOutside (view pass.old) }
    requires hash { HoldsTheirPart (view pass.old) child root }
    requires known { IsKnown pass.old }
    requires few { (shape_of_pass pass.old).pages < 2 ^ 32 }
    requires room { count pass.old < MAX_HELD }
    ensures own { IsSamePass pass.old pass.new × IsPassOf space.now pass.new }
    ensures ok { OnOk result (SinksHashed pass.old index root child pass.new) }
    ensures err { OnErr result (IsAsBefore pass.old pass.new) }
    ensures fits { IsFittedTree (view pass.new) }
{
    fits(pass);
    laws_of_moves();
    sink_storeys(alloc, space, pass, root, child)?;
    keep_up_between(space, pass, child, root, wait);
    let old = tree(space, pass, index);
    let height = old.height - 1;
    change_tree(space, pass, index, Tree { height, ..old });
    space.settle(pass);
    Ok(())
}

/// Moves all rows of a page in hand to the root. After `NoMemory` all is as before.
fn sink_storeys(
    alloc: Global,
    space: &ForestSpace,
    pass: &mut ForestPass,
    root: u32,
    child: u32,
) -> Result<(), NoMemory>
    requires own { IsForest space.now × IsPassOf space.now pass.old }
    requires suits { SuitsSinking pass.old root child }
    requires known { IsKnown pass.old }
    ensures own { IsSamePass pass.old pass.new × IsPassOf space.now pass.new }
    ensures ok { OnOk result (SinksStoreys pass.old root child pass.new) }
    ensures err { OnErr result (IsAsBefore pass.old pass.new) }
{
    let mut top = frame_out(space, pass, root);
    let mut low = frame_out(space, pass, child);
    let outcome = lift_frames(alloc, &mut top, &mut low);
    frame_back(space, pass, root, top);
    frame_back(space, pass, child, low);
    outcome
}

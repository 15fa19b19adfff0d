//! A root and the page that gets its rows, in hand.
ghost use Rattle.std.specs.Prelude.{◌<◌, ◌≤◌, ℕ, Option, OnOk, OnErr};
ghost use Rattle.latch_space.specs.declared.TheConstants.{MAX_HELD};
ghost use Rattle.latch_space.specs.Has.{IsKnown};
ghost use Rattle.latch_space.specs.Passes.{view, count, IsSamePass};
ghost use Rattle.latch_space.specs.Spaces.{IsPassOf};
ghost use Rattle.forest_world.specs.Held.{shape_of_pass};
ghost use Rattle.buffer_pool.specs.Forests.{IsForest, IsFittedTree};
ghost use Rattle.tree_smo.specs.Remakes.{IsAsBefore};
ghost use Rattle.tree_smo.specs.PartHeld.{HoldsPartFor};
ghost use Rattle.tree_smo.specs.Storeys.{SuitsStoreys, ChangesStoreys, HoldsStoreys};
ghost use Rattle.tree_smo.specs.Storeys.{MakesRaiseHeld};

use crate::keeping::{keep_up_between, laws_of_moves};
use buffer_pool::{change_tree, frame_back, frame_out, tree};
use forest_world::{ForestPass, ForestSpace, Tree, fits};
use key_tuple::NoMemory;
use std::alloc::Global;
use std::sync::Wait;
use tree_restructure::raise_frames;

/// Raises an index's root, in the frame of the block `root`, over the new page in that of the block
/// `under`, and makes that known with the tree's height. The partition of the index is held, where the
/// root is hashed. After `NoMemory` all is as before.
pub(crate) fn make_raise<R: Wait>(
    alloc: Global,
    space: &ForestSpace,
    pass: &mut ForestPass,
    index: u32,
    root: u32,
    under: u32,
    wait: &R,
) -> Result<(), NoMemory>
    requires own { IsForest space.now × IsPassOf space.now pass.old }
    requires index { index < (shape_of_pass pass.old).indexes }
    requires few { (shape_of_pass pass.old).pages ≤ 65536 }
    requires held { HoldsStoreys (view pass.old) index root under }
    requires known { IsKnown pass.old }
    requires part { (part : Option ℕ) × HoldsPartFor (view pass.old) root part }
    requires room { count pass.old < MAX_HELD }
    ensures own { IsSamePass pass.old pass.new × IsPassOf space.now pass.new }
    ensures ok { OnOk result (MakesRaiseHeld pass.old index root under pass.new) }
    ensures err { OnErr result (IsAsBefore pass.old pass.new) }
    ensures fits { IsFittedTree (view pass.new) }
{
    fits(pass);
    laws_of_moves();
    change_storeys(alloc, space, pass, root, under)?;
    keep_up_between(space, pass, root, under, wait);
    let old = tree(space, pass, index);
    let height = old.height + 1;
    change_tree(space, pass, index, Tree { height, ..old });
    space.settle(pass);
    Ok(())
}

/// Moves all rows of a root in hand to the page of another frame. After `NoMemory` all is as
/// before.
fn change_storeys(
    alloc: Global,
    space: &ForestSpace,
    pass: &mut ForestPass,
    root: u32,
    under: u32,
) -> Result<(), NoMemory>
    requires own { IsForest space.now × IsPassOf space.now pass.old }
    requires suits { SuitsStoreys pass.old root under }
    requires known { IsKnown pass.old }
    ensures own { IsSamePass pass.old pass.new × IsPassOf space.now pass.new }
    ensures ok { OnOk result (ChangesStoreys pass.old root under pass.new) }
    ensures err { OnErr result (IsAsBefore pass.old pass.new) }
{
    let mut top = frame_out(space, pass, root);
    let mut low = frame_out(space, pass, under);
    let outcome = raise_frames(alloc, &mut top, &mut low);
    frame_back(space, pass, root, top);
    frame_back(space, pass, under, low);
    outcome
}

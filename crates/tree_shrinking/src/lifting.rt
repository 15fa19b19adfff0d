//! A root sinks to its only child.
ghost use Rattle.std.specs.Prelude.{◌<◌, ◌≤◌, ◌+◌, [], ◌∷◌, OnOk, OnErr};
ghost use Rattle.latch_space.specs.declared.TheConstants.{MAX_HELD};
ghost use Rattle.latch_space.specs.Has.{IsKnown};
ghost use Rattle.latch_space.specs.Passes.{view, count, IsSamePass};
ghost use Rattle.latch_space.specs.Spaces.{IsPassOf};
ghost use Rattle.forest_world.specs.Held.{shape_of_pass};
ghost use Rattle.call_law.specs.Hands.{HoldsNoFrameBut, HoldsNoTable};
ghost use Rattle.buffer_pool.specs.Calls.{GetsNothing};
ghost use Rattle.buffer_pool.specs.Forests.{IsForest, IsFittedTree};
ghost use Rattle.tree_shrinking.specs.Lifting.{CanLift, LiftsRoot};

use crate::sinking::sink_hashed;
use buffer_pool::free_page;
use forest_world::{ForestPass, ForestSpace};
use key_tuple::NoMemory;
use std::alloc::Global;
use std::sync::Wait;
use tree_smo::pages_are_numbered;

/// Moves all rows of the only page that an index's root points to to the root, which is a level
/// lower then, and frees the page's number. The root is in the block `root`. After `NoMemory` all is
/// as before.
pub fn lift<R: Wait>(
    alloc: Global,
    space: &ForestSpace,
    pass: &mut ForestPass,
    index: u32,
    root: u32,
    child: u32,
    wait: &R,
) -> Result<(), NoMemory>
    requires own { IsForest space.now × IsPassOf space.now pass.old }
    requires index { index < (shape_of_pass pass.old).indexes }
    requires held { CanLift (view pass.old) index root child }
    requires known { IsKnown pass.old }
    requires frames { HoldsNoFrameBut (view pass.old) (root ∷ child ∷ []) }
    requires tables { HoldsNoTable (view pass.old) }
    requires room { count pass.old + 2 ≤ MAX_HELD }
    ensures own { IsSamePass pass.old pass.new × IsPassOf space.now pass.new }
    ensures ok { OnOk result (LiftsRoot pass.old index root child pass.new) }
    ensures memory { OnErr result (GetsNothing pass.old pass.new) }
    ensures fits { IsFittedTree (view pass.new) }
{
    pages_are_numbered(space, pass);
    sink_hashed(alloc, space, pass, index, root, child, wait)?;
    free_page(space, pass, child, wait);
    Ok(())
}

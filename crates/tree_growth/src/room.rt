//! Room is made on the leaf of a key.
ghost use Rattle.std.specs.Prelude.{◌≡◌, ◌<◌, ◌≤◌, Err, OnOk, length};
ghost use Rattle.latch_space.specs.Has.{IsKnown};
ghost use Rattle.latch_space.specs.Passes.{view, count, IsSamePass};
ghost use Rattle.latch_space.specs.Spaces.{IsPassOf};
ghost use Rattle.index_page.specs.declared.TheConstants.{MAX_CHARGE};
ghost use Rattle.forest_law.specs.State.{fields_for};
ghost use Rattle.forest_world.specs.Held.{shape_of_pass};
ghost use Rattle.buffer_pool.specs.declared.error.PoolError.TheVariants as refused;
ghost use Rattle.buffer_pool.specs.Forests.{IsForest, IsFittedTree};
ghost use Rattle.tree_growth.specs.Growing.{MakesRoom, FindsNoRoom, GrowsSilently};

use crate::way::walk_down;
use buffer_pool::{PoolError, give_tree_back, take_tree};
use forest_world::{ForestPass, ForestSpace};
use key_tuple::Key;
use std::alloc::Global;
use std::sync::Wait;

/// Goes down from the root with the tree of the index in hand, and splits what is too full on the
/// way, so that the leaf of the key has room for a row of that charge when it is given back. The
/// root is raised first where it is an inner page with too little room for a pointer, or a leaf
/// without room; then each inner child with too little room, and a leaf without room, is split.
/// After `NoMemory` and `SpaceFull` the pages that were split stay so, and rows are where they were
/// or on the new page beside.
pub fn make_room<R: Wait>(
    alloc: Global,
    space: &ForestSpace,
    pass: &mut ForestPass,
    index: u32,
    key: &Key,
    need: u16,
    wait: &R,
) -> Result<(), PoolError>
    requires own { IsForest space.now × IsPassOf space.now pass.old }
    requires index { index < (shape_of_pass pass.old).indexes }
    requires few { (shape_of_pass pass.old).pages ≤ 65536 }
    requires fields { length key.now.tuple ≡ fields_for (shape_of_pass pass.old) index }
    requires need { need ≤ MAX_CHARGE }
    requires known { IsKnown pass.old }
    requires nothing { count pass.old ≡ 0 }
    ensures own { IsSamePass pass.old pass.new × IsPassOf space.now pass.new }
    ensures ok { OnOk result (MakesRoom pass.old index key.now.tuple need pass.new) }
    ensures full { result ≡ Err refused.SpaceFull → FindsNoRoom pass.old index pass.new }
    ensures memory { result ≡ Err refused.NoMemory → GrowsSilently pass.old pass.new }
    ensures fits { IsFittedTree (view pass.new) }
{
    take_tree(space, pass, index, wait);
    let made = walk_down(alloc, space, pass, index, key, need, wait);
    give_tree_back(space, pass, index);
    made
}

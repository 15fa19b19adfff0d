//! Light pages are merged, from the leaf of a key upwards.
ghost use Rattle.std.specs.Prelude.{◌≡◌, ◌<◌, ◌≤◌, [], OnOk, length};
ghost use Rattle.latch_space.specs.Has.{IsKnown};
ghost use Rattle.latch_space.specs.Passes.{view, count, IsSamePass};
ghost use Rattle.latch_space.specs.Spaces.{IsPassOf};
ghost use Rattle.forest_law.specs.State.{fields_for};
ghost use Rattle.forest_world.specs.Held.{shape_of_pass};
ghost use Rattle.buffer_pool.specs.Forests.{IsForest, IsFittedTree};
ghost use Rattle.tree_growth.specs.Growing.{GrowsSilently};
ghost use Rattle.tree_growth.specs.Ways.{IsGoingDown};
ghost use Rattle.tree_shrinking.specs.Joins.{WalksUp};
ghost use Rattle.tree_shrinking.specs.Pairs.{GoesTo};
ghost use Rattle.tree_shrinking.specs.Shrinking.{Shrinks};

use crate::levels::join_level;
use buffer_pool::{give_tree_back, take_tree};
use forest_world::{ForestPass, ForestSpace};
use key_tuple::{Key, NoMemory};
use std::alloc::Global;
use std::sync::Wait;

/// Merges the leaf of the key, where it is light, with the page before it under the same parent
/// where both have room on one page, else with the page after it; then asks the same of the parent,
/// and so on, and lifts a root that is left with one child. Begins with nothing in hand, and holds
/// the tree of the index meanwhile. After `NoMemory` the pages that were merged stay so.
pub fn shrink<R: Wait>(
    alloc: Global,
    space: &ForestSpace,
    pass: &mut ForestPass,
    index: u32,
    key: &Key,
    wait: &R,
) -> Result<(), NoMemory>
    requires own { IsForest space.now × IsPassOf space.now pass.old }
    requires index { index < (shape_of_pass pass.old).indexes }
    requires few { (shape_of_pass pass.old).pages ≤ 65536 }
    requires fields { length key.now.tuple ≡ fields_for (shape_of_pass pass.old) index }
    requires known { IsKnown pass.old }
    requires nothing { count pass.old ≡ 0 }
    ensures own { IsSamePass pass.old pass.new × IsPassOf space.now pass.new }
    ensures ok { OnOk result (Shrinks pass.old index key.now.tuple pass.new) }
    ensures quiet { GrowsSilently pass.old pass.new }
    ensures fits { IsFittedTree (view pass.new) }
{
    take_tree(space, pass, index, wait);
    let outcome = shrink_up(alloc, space, pass, index, key, wait);
    give_tree_back(space, pass, index);
    outcome
}

/// The same with the tree in hand: level by level, as long as a page is merged.
fn shrink_up<R: Wait>(
    alloc: Global,
    space: &ForestSpace,
    pass: &mut ForestPass,
    index: u32,
    key: &Key,
    wait: &R,
) -> Result<(), NoMemory>
    requires own { IsForest space.now × IsPassOf space.now pass.old }
    requires way { IsGoingDown pass.old index key.now.tuple [] }
    ensures own { IsSamePass pass.old pass.new × IsPassOf space.now pass.new }
    ensures ok { OnOk result (WalksUp pass.old index key.now.tuple pass.new) }
    ensures to { GoesTo pass.old index key.now.tuple [] pass.new }
    ensures fits { IsFittedTree (view pass.new) }
{
    let mut level = 0;
    for _ in wait.forever() {
        match join_level(alloc, space, pass, level, index, key, wait)? {
            Some(above) => level = above,
            None => return Ok(()),
        }
    }
    unreachable!()
}

//! From the root down to the leaf of a key.
ghost use Rattle.std.specs.Prelude.{◌≡◌, ◌+◌, ◌<◌, ◌≤◌, [], ◌∷◌, IfOk, OnOk, IfErr, false};
ghost use Rattle.latch_space.specs.Passes.{view, IsSamePass};
ghost use Rattle.latch_space.specs.Spaces.{IsPassOf};
ghost use Rattle.index_page.specs.declared.TheConstants.{MAX_CHARGE};
ghost use Rattle.buffer_pool.specs.Forests.{IsForest, IsFittedTree};
ghost use Rattle.tree_growth.specs.Pages.{IsPageInHand};
ghost use Rattle.tree_growth.specs.Ways.{IsGoingDown, ArrivesWithRoom, StopsOnWay, WalksDown};

use crate::growing::{grow_child, grow_root, take_root};
use crate::looking::PageInHand;
use buffer_pool::{PoolError, give_back};
use forest_world::{ForestPass, ForestSpace};
use key_tuple::{Key, Mode};
use std::alloc::Global;
use std::sync::Wait;
use tree_descent::child_for;

/// Goes down to the leaf, and splits what is too full on the way, so that the leaf has room.
pub(crate) fn walk_down<R: Wait>(
    alloc: Global,
    space: &ForestSpace,
    pass: &mut ForestPass,
    index: u32,
    key: &Key,
    need: u16,
    wait: &R,
) -> Result<(), PoolError>
    requires own { IsForest space.now × IsPassOf space.now pass.old }
    requires need { need ≤ MAX_CHARGE }
    requires way { IsGoingDown pass.old index key.now.tuple [] }
    ensures own { IsSamePass pass.old pass.new × IsPassOf space.now pass.new }
    ensures ok { OnOk result (WalksDown pass.old index key.now.tuple need pass.new) }
    ensures err { IfErr result (λ e. StopsOnWay pass.old index key.now.tuple e pass.new) }
    ensures fits { IsFittedTree (view pass.new) }
{
    let root = take_root(space, pass, index, key, need, wait);
    let mut at = grow_root(alloc, space, pass, root, index, key, need, wait)?;
    while at.level > 0 {
        at = grow_below(alloc, space, pass, at, index, key, need, wait)?;
    }
    give_back(space, pass, at.block);
    Ok(())
}

// One level down.
fn grow_below<R: Wait>(
    alloc: Global,
    space: &ForestSpace,
    pass: &mut ForestPass,
    at: PageInHand,
    index: u32,
    key: &Key,
    need: u16,
    wait: &R,
) -> Result<PageInHand, PoolError>
    requires own { IsForest space.now × IsPassOf space.now pass.old }
    requires need { need ≤ MAX_CHARGE }
    requires way { IsGoingDown pass.old index key.now.tuple (at.block ∷ []) }
    requires held { IsPageInHand (view pass.old) index key.now.tuple need at }
    requires inner { 0 < at.level }
    requires room { at.is_full ≡ false }
    ensures own { IsSamePass pass.old pass.new × IsPassOf space.now pass.new }
    ensures ok { IfOk result
        (λ low. ArrivesWithRoom pass.old index key.now.tuple need low pass.new) }
    ensures lower { IfOk result (λ low. at.level ≡ low.level + 1) }
    ensures err { IfErr result (λ e. StopsOnWay pass.old index key.now.tuple e pass.new) }
    ensures fits { IsFittedTree (view pass.new) }
{
    let child = child_for(space, pass, at.block, index, key, Mode::Ge, wait);
    grow_child(alloc, space, pass, at.block, child, index, key, need, wait)
}

//! From the root down to the page above a level, where a page of that level is merged.
ghost use Rattle.std.specs.Prelude.{ℕ, ◌≡◌, ◌<◌, ◌≤◌, ◌+◌, [], ◌∷◌, Ok, Some, None, IfOk, IfSome};
ghost use Rattle.latch_space.specs.Passes.{view, IsSamePass};
ghost use Rattle.latch_space.specs.Spaces.{IsPassOf};
ghost use Rattle.buffer_pool.specs.Forests.{IsForest, IsFittedTree};
ghost use Rattle.tree_growth.specs.Pages.{IsPageInHand, HoldsRoot};
ghost use Rattle.tree_growth.specs.Ways.{IsGoingDown, ArrivesAt};
ghost use Rattle.tree_shrinking.specs.Joins.{RestsOn, FreesOne};
ghost use Rattle.tree_shrinking.specs.Pairs.{GoesTo};

use crate::joining::join_child;
use buffer_pool::give_back;
use forest_world::{ForestPass, ForestSpace};
use key_tuple::{Key, Mode, NoMemory};
use std::alloc::Global;
use std::sync::Wait;
use tree_descent::child_for;
use tree_growth::{PageInHand, page_in_hand, take_root};

/// Merges the page of the level that has the key, where it is light, and tells the level above
/// where it did so.
pub(crate) fn join_level<R: Wait>(
    alloc: Global,
    space: &ForestSpace,
    pass: &mut ForestPass,
    level: u16,
    index: u32,
    key: &Key,
    wait: &R,
) -> Result<Option<u16>, NoMemory>
    requires own { IsForest space.now × IsPassOf space.now pass.old }
    requires way { IsGoingDown pass.old index key.now.tuple [] }
    ensures own { IsSamePass pass.old pass.new × IsPassOf space.now pass.new }
    ensures to { GoesTo pass.old index key.now.tuple [] pass.new }
    ensures rests { result ≡ Ok None
        → RestsOn pass.old index level key.now.tuple pass.new }
    ensures freed { (above : ℕ) → result ≡ Ok (Some above)
        → FreesOne pass.old index key.now.tuple pass.new }
    ensures above { IfOk result (λ o. IfSome o (λ above. above ≡ level + 1)) }
    ensures fits { IsFittedTree (view pass.new) }
{
    let at = walk_above(space, pass, level, index, key, wait);
    if at.level <= level {
        give_back(space, pass, at.block);
        return Ok(None);
    }
    let merged = join_child(alloc, space, pass, at.block, index, key, wait);
    give_back(space, pass, at.block);
    if merged? {
        Ok(Some(at.level))
    } else {
        Ok(None)
    }
}

/// Goes down from the root to the page above the level that has the key, or to the root, where that
/// isn't above the level.
fn walk_above<R: Wait>(
    space: &ForestSpace,
    pass: &mut ForestPass,
    level: u16,
    index: u32,
    key: &Key,
    wait: &R,
) -> PageInHand
    requires own { IsForest space.now × IsPassOf space.now pass.old }
    requires way { IsGoingDown pass.old index key.now.tuple [] }
    ensures own { IsSamePass pass.old pass.new × IsPassOf space.now pass.new }
    ensures reaches { ArrivesAt pass.old index key.now.tuple 0 result pass.new }
    ensures above { level < result.level → result.level ≡ level + 1 }
    ensures root { result.level ≤ level → HoldsRoot (view pass.new) result.block index }
    ensures fits { IsFittedTree (view pass.new) }
{
    let mut at = take_root(space, pass, index, key, 0, wait);
    while at.level > 0 && at.level - 1 > level {
        at = step_down(space, pass, at, index, key, wait);
    }
    at
}

/// One level down, to the page that has the key.
fn step_down<R: Wait>(
    space: &ForestSpace,
    pass: &mut ForestPass,
    at: PageInHand,
    index: u32,
    key: &Key,
    wait: &R,
) -> PageInHand
    requires own { IsForest space.now × IsPassOf space.now pass.old }
    requires way { IsGoingDown pass.old index key.now.tuple (at.block ∷ []) }
    requires held { IsPageInHand (view pass.old) index key.now.tuple 0 at }
    requires inner { 0 < at.level }
    ensures own { IsSamePass pass.old pass.new × IsPassOf space.now pass.new }
    ensures reaches { ArrivesAt pass.old index key.now.tuple 0 result pass.new }
    ensures lower { at.level ≡ result.level + 1 }
    ensures fits { IsFittedTree (view pass.new) }
{
    let child = child_for(space, pass, at.block, index, key, Mode::Ge, wait);
    give_back(space, pass, at.block);
    page_in_hand(space, pass, child, 0)
}

//! A page with too little room is split, with its parent in hand.
ghost use Rattle.std.specs.Prelude.{◌≡◌, ◌≤◌, [], ◌∷◌, IfOk, IfErr};
ghost use Rattle.latch_space.specs.Passes.{view, IsSamePass};
ghost use Rattle.latch_space.specs.Spaces.{IsPassOf};
ghost use Rattle.index_page.specs.declared.TheConstants.{MAX_CHARGE};
ghost use Rattle.buffer_pool.specs.Forests.{IsForest, IsFittedTree};
ghost use Rattle.tree_smo.specs.Splitting.{CanSplit};
ghost use Rattle.tree_growth.specs.Pages.{IsOrdered, IsPageInHand, HoldsRoot, HoldsChild};
ghost use Rattle.tree_growth.specs.Ways.{IsGoingDown, ArrivesAt, ArrivesWithRoom, StopsOnWay, GrowsChild};

use crate::halves::keep_half;
use crate::looking::{PageInHand, page_in_hand};
use buffer_pool::{PoolError, give_back, page_in};
use forest_world::{ForestPass, ForestSpace, fits};
use key_tuple::Key;
use std::alloc::Global;
use std::sync::Wait;
use tree_smo::{raise_root, split_child};

/// Takes the root.
pub fn take_root<R: Wait>(
    space: &ForestSpace,
    pass: &mut ForestPass,
    index: u32,
    key: &Key,
    need: u16,
    wait: &R,
) -> PageInHand
    requires own { IsForest space.now × IsPassOf space.now pass.old }
    requires need { need ≤ MAX_CHARGE }
    requires way { IsGoingDown pass.old index key.now.tuple [] }
    ensures own { IsSamePass pass.old pass.new × IsPassOf space.now pass.new }
    ensures took { ArrivesAt pass.old index key.now.tuple need result pass.new }
    ensures root { HoldsRoot (view pass.new) result.block index }
    ensures fits { IsFittedTree (view pass.new) }
{
    let _ = key;
    let block = page_in(space, pass, index, wait);
    page_in_hand(space, pass, block, need)
}

/// Raises the root where it has too little room, and splits the page under it.
pub(crate) fn grow_root<R: Wait>(
    alloc: Global,
    space: &ForestSpace,
    pass: &mut ForestPass,
    root: PageInHand,
    index: u32,
    key: &Key,
    need: u16,
    wait: &R,
) -> Result<PageInHand, PoolError>
    requires own { IsForest space.now × IsPassOf space.now pass.old }
    requires need { need ≤ MAX_CHARGE }
    requires way { IsGoingDown pass.old index key.now.tuple (root.block ∷ []) }
    requires held { IsPageInHand (view pass.old) index key.now.tuple need root }
    requires root { HoldsRoot (view pass.old) root.block index }
    ensures own { IsSamePass pass.old pass.new × IsPassOf space.now pass.new }
    ensures ok { IfOk result (λ at. ArrivesWithRoom pass.old index key.now.tuple need at pass.new) }
    ensures err { IfErr result (λ e. StopsOnWay pass.old index key.now.tuple e pass.new) }
    ensures fits { IsFittedTree (view pass.new) }
{
    if !root.is_full {
        fits(pass);
        return Ok(root);
    }
    match raise_root(alloc, space, pass, index, root.block, wait) {
        Ok(under) => grow_child(
            alloc, space, pass, root.block, under, index, key, need, wait,
        ),
        Err(error) => {
            give_back(space, pass, root.block);
            Err(error)
        }
    }
}

/// Splits the child where it has too little room, keeps the page that has the key, and gives the
/// parent back.
pub(crate) fn grow_child<R: Wait>(
    alloc: Global,
    space: &ForestSpace,
    pass: &mut ForestPass,
    parent: u32,
    child: u32,
    index: u32,
    key: &Key,
    need: u16,
    wait: &R,
) -> Result<PageInHand, PoolError>
    requires own { IsForest space.now × IsPassOf space.now pass.old }
    requires need { need ≤ MAX_CHARGE }
    requires way { IsGoingDown pass.old index key.now.tuple (parent ∷ child ∷ []) }
    requires held { HoldsChild (view pass.old) parent child index key.now.tuple }
    ensures own { IsSamePass pass.old pass.new × IsPassOf space.now pass.new }
    ensures ok { IfOk result
        (λ at. GrowsChild pass.old parent child index key.now.tuple need at pass.new) }
    ensures err { IfErr result (λ e. StopsOnWay pass.old index key.now.tuple e pass.new) }
    ensures fits { IsFittedTree (view pass.new) }
{
    let low = page_in_hand(space, pass, child, need);
    if low.is_full {
        return halve_child(alloc, space, pass, parent, child, index, key, need, wait);
    }
    give_back(space, pass, parent);
    Ok(low)
}

// Splits the child, keeps the half that has the key, and gives the parent back.
fn halve_child<R: Wait>(
    alloc: Global,
    space: &ForestSpace,
    pass: &mut ForestPass,
    parent: u32,
    child: u32,
    index: u32,
    key: &Key,
    need: u16,
    wait: &R,
) -> Result<PageInHand, PoolError>
    requires own { IsForest space.now × IsPassOf space.now pass.old }
    requires need { need ≤ MAX_CHARGE }
    requires way { IsGoingDown pass.old index key.now.tuple (parent ∷ child ∷ []) }
    requires held { HoldsChild (view pass.old) parent child index key.now.tuple }
    requires two { CanSplit (view pass.old) parent child index }
    requires order { IsOrdered (view pass.old) child }
    ensures own { IsSamePass pass.old pass.new × IsPassOf space.now pass.new }
    ensures ok { IfOk result
        (λ at. GrowsChild pass.old parent child index key.now.tuple need at pass.new) }
    ensures err { IfErr result (λ e. StopsOnWay pass.old index key.now.tuple e pass.new) }
    ensures fits { IsFittedTree (view pass.new) }
{
    match split_child(alloc, space, pass, parent, child, index, wait) {
        Ok(right) => {
            give_back(space, pass, parent);
            Ok(keep_half(space, pass, child, right, index, key, need))
        }
        Err(error) => {
            give_back(space, pass, child);
            give_back(space, pass, parent);
            Err(error)
        }
    }
}

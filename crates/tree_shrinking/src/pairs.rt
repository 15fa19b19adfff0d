//! Two pages that follow one another are taken, and weighed.
ghost use Rattle.std.specs.Prelude.{[], ◌∷◌};
ghost use Rattle.latch_space.specs.Passes.{view, IsSamePass};
ghost use Rattle.latch_space.specs.Spaces.{IsPassOf};
ghost use Rattle.buffer_pool.specs.Forests.{IsForest, IsFittedTree};
ghost use Rattle.tree_growth.specs.Pages.{HoldsPagedFrame};
ghost use Rattle.tree_growth.specs.Ways.{IsGoingDown};
ghost use Rattle.tree_shrinking.specs.Joins.{GivesPair};
ghost use Rattle.tree_shrinking.specs.Pairs.{HoldsAbovePair, HoldsPair, TellsJoin, pair_in, TakesPair};

use crate::reading::held_page;
use crate::{LIGHT_LOAD, MERGED_LOAD};
use buffer_pool::{give_back, page_in};
use forest_world::{ForestPass, ForestSpace, fits};
use key_tuple::Key;
use std::sync::Wait;

/// Two pages that follow one another under a third.
#[derive(Drop, Clone, Copy)]
pub(crate) struct Siblings {
    /// The number of the first page.
    pub left: u32,
    /// The number of the second page.
    pub right: u32,
    /// Whether it is the second page that may be light.
    pub right_asks: bool,
}

/// The same once all three are held.
#[derive(Drop, Clone, Copy)]
pub(crate) struct Pair {
    /// The block of the page above.
    pub parent: u32,
    /// The block of the first page.
    pub left: u32,
    /// The block of the second page.
    pub right: u32,
    /// Whether it is the second page that may be light.
    pub right_asks: bool,
}

/// Takes both pages, from left to right, and answers their blocks.
pub(crate) fn take_pair<R: Wait>(
    space: &ForestSpace,
    pass: &mut ForestPass,
    parent: u32,
    asked: Siblings,
    index: u32,
    key: &Key,
    wait: &R,
) -> (u32, u32)
    requires own { IsForest space.now × IsPassOf space.now pass.old }
    requires way { IsGoingDown pass.old index key.now.tuple (parent ∷ []) }
    requires held { HoldsAbovePair (view pass.old) parent asked index }
    ensures own { IsSamePass pass.old pass.new × IsPassOf space.now pass.new }
    ensures took { TakesPair pass.old (pair_in parent asked result.0 result.1) asked index
        key.now.tuple pass.new }
    ensures fits { IsFittedTree (view pass.new) }
{
    let _ = parent;
    let _ = index;
    let _ = key;
    fits(pass);
    let left = page_in(space, pass, asked.left, wait);
    let right = page_in(space, pass, asked.right, wait);
    (left, right)
}

/// Gives both pages back.
pub(crate) fn give_pair_back(
    space: &ForestSpace,
    pass: &mut ForestPass,
    pair: Pair,
    index: u32,
    key: &Key,
)
    requires own { IsForest space.now × IsPassOf space.now pass.old }
    requires way { IsGoingDown pass.old index key.now.tuple
        (pair.parent ∷ pair.left ∷ pair.right ∷ []) }
    requires held { HoldsPair (view pass.old) pair index }
    ensures own { IsSamePass pass.old pass.new × IsPassOf space.now pass.new }
    ensures gave { GivesPair pass.old pair index key.now.tuple pass.new }
    ensures fits { IsFittedTree (view pass.new) }
{
    let _ = index;
    let _ = key;
    fits(pass);
    give_back(space, pass, pair.right);
    give_back(space, pass, pair.left);
}

/// Whether the page that may be light is so, and both have room on one page.
pub(crate) fn are_to_join(space: &ForestSpace, pass: &ForestPass, pair: Pair) -> bool
    requires own { IsForest space.now × IsPassOf space.now pass.now }
    requires left { HoldsPagedFrame pass.now pair.left }
    requires right { HoldsPagedFrame pass.now pair.right }
    ensures { TellsJoin pass.now pair result }
{
    let left = u64::from(held_page(space, pass, pair.left).load());
    let right = u64::from(held_page(space, pass, pair.right).load());
    let most = u64::from(MERGED_LOAD);
    let asks = if pair.right_asks { right } else { left };
    asks < u64::from(LIGHT_LOAD) && left <= most && right <= most - left
}

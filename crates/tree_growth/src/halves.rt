//! Of the two halves of a page that was split, the one that has the key is kept.
ghost use Rattle.std.specs.Prelude.{◌≡◌, ◌≤◌, [], ◌∷◌};
ghost use Rattle.latch_space.specs.Passes.{view, IsSamePass};
ghost use Rattle.latch_space.specs.Spaces.{IsPassOf};
ghost use Rattle.key_tuple.specs.KeyPlace.{At, above};
ghost use Rattle.index_page.specs.declared.TheConstants.{MAX_CHARGE};
ghost use Rattle.buffer_pool.specs.Forests.{IsForest, IsFittedTree};
ghost use Rattle.tree_growth.specs.Pages.{HoldsBothHalves, HoldsLow};
ghost use Rattle.tree_growth.specs.Ways.{IsGoingDown, KeepsHalf};

use crate::looking::{PageInHand, page_in_hand};
use buffer_pool::{frame, give_back};
use forest_world::{ForestPass, ForestSpace};
use key_tuple::{Key, compare};

/// Keeps the one of the two pages in whose bounds the key is, and gives the other back.
pub(crate) fn keep_half(
    space: &ForestSpace,
    pass: &mut ForestPass,
    left: u32,
    right: u32,
    index: u32,
    key: &Key,
    need: u16,
) -> PageInHand
    requires own { IsForest space.now × IsPassOf space.now pass.old }
    requires need { need ≤ MAX_CHARGE }
    requires way { IsGoingDown pass.old index key.now.tuple (left ∷ right ∷ []) }
    requires held { HoldsBothHalves (view pass.old) left right index key.now.tuple }
    ensures own { IsSamePass pass.old pass.new × IsPassOf space.now pass.new }
    ensures kept { KeepsHalf pass.old left right index key.now.tuple need result pass.new }
    ensures fits { IsFittedTree (view pass.new) }
{
    if is_below(space, pass, right, key) {
        give_back(space, pass, right);
        page_in_hand(space, pass, left, need)
    } else {
        give_back(space, pass, left);
        page_in_hand(space, pass, right, need)
    }
}

// Whether the key is below where the block's page begins.
fn is_below(space: &ForestSpace, pass: &ForestPass, block: u32, key: &Key) -> bool
    requires own { IsForest space.now × IsPassOf space.now pass.now }
    requires held { HoldsLow pass.now block key.now.tuple }
    ensures { (held : HoldsLow pass.now block key.now.tuple)
        → result ≡ above key.now.tuple (At held.at) }
{
    match &frame(space, pass, block).low {
        Some(low) => compare(key, low).is_lt(),
        None => unreachable!(),
    }
}

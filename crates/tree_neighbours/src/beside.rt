//! The leaf beside the one in hand.
ghost use Rattle.std.specs.Prelude.{ℕ, ◌≡◌, ◌+◌, ◌≤◌, [], ◌∷◌};
ghost use Rattle.latch_space.specs.declared.TheConstants.{MAX_HELD};
ghost use Rattle.latch_space.specs.Has.{IsKnown};
ghost use Rattle.latch_space.specs.Passes.{view, count, IsSamePass};
ghost use Rattle.latch_space.specs.Spaces.{IsPassOf};
ghost use Rattle.call_law.specs.Hands.{HoldsNoFrameBut, HoldsNoTable};
ghost use Rattle.buffer_pool.specs.Forests.{IsForest, IsFittedTree};
ghost use Rattle.tree_descent.specs.Ways.{HoldsPage};
ghost use Rattle.tree_neighbours.specs.Neighbours.{TellsBeside};
ghost use Rattle.tree_neighbours.specs.Sides as sides;

use crate::side::{Side, page_on};
use buffer_pool::{frame, page_in, try_page};
use forest_world::{ForestPass, ForestSpace, fits};
use std::sync::Wait;

/// What stands on a side of a leaf.
#[derive(Clone, Copy)]
pub enum Beside {
    /// Nothing: it is the last leaf on this side.
    AtEnd,
    /// The leaf in this block's frame, which is held now.
    Held(u32),
    /// A leaf that another pass holds.
    Busy,
}

/// Holds the leaf beside the block's one besides. The right one is waited for. For the left one,
/// which is against the order of latches, one try is made.
pub fn take_beside<R: Wait>(
    space: &ForestSpace,
    pass: &mut ForestPass,
    block: u32,
    index: u32,
    side: Side,
    wait: &R,
) -> Beside
    requires own { IsForest space.now × IsPassOf space.now pass.old }
    requires held { HoldsPage (view pass.old) block index 0 }
    requires known { IsKnown pass.old }
    requires frames { HoldsNoFrameBut (view pass.old) (block ∷ []) }
    requires tables { HoldsNoTable (view pass.old) }
    requires room { count pass.old + 3 ≤ MAX_HELD }
    ensures own { IsSamePass pass.old pass.new × IsPassOf space.now pass.new }
    ensures tells { TellsBeside pass.old block index side result pass.new }
    ensures fits { IsFittedTree (view pass.new) }
{
    let _ = index;
    fits(pass);
    let Some(other) = page_beside(space, pass, block, side) else {
        return Beside::AtEnd;
    };
    match side {
        Side::Right => Beside::Held(page_in(space, pass, other, wait)),
        Side::Left => match try_page(space, pass, other, wait) {
            Some(found) => Beside::Held(found),
            None => Beside::Busy,
        },
    }
}

/// The number of the page to which the block's one leads on this side.
fn page_beside(space: &ForestSpace, pass: &ForestPass, block: u32, side: Side) -> Option<u32>
    requires own { IsForest space.now × IsPassOf space.now pass.now }
    requires held { (index : ℕ) × HoldsPage (view pass.now) block index 0 }
    requires known { IsKnown pass.now }
    ensures { (index : ℕ) (h : HoldsPage (view pass.now) block index 0)
        → result ≡ sides.page_on side h.is.page }
{
    match &frame(space, pass, block).page {
        Some(page) => page_on(side, page),
        None => unreachable!(),
    }
}

//! What is read of a page in hand: the child that a position picks, the spot of a search, and whether
//! its bounds have the position.
ghost use Rattle.std.specs.Prelude.{ℕ, ◌≡◌, ◌≤◌, suc, IsTrue, length};
ghost use Rattle.latch_space.specs.Has.{IsKnown};
ghost use Rattle.latch_space.specs.Passes.{view};
ghost use Rattle.latch_space.specs.Spaces.{IsPassOf};
ghost use Rattle.index_page.specs.Search.{Finds};
ghost use Rattle.forest_law.specs.State.{fields_for};
ghost use Rattle.forest_world.specs.Held.{shape_of_pass};
ghost use Rattle.buffer_pool.specs.Forests.{IsForest};
ghost use Rattle.tree_descent.specs.Leaves.{HasCutWithin, cut_in};
ghost use Rattle.tree_descent.specs.Paths.{PicksChild};
ghost use Rattle.tree_descent.specs.Ways.{HoldsPage, HoldsSome, HoldsAbove};

use crate::pages::{child_in, page_of};
use crate::positions::has_position;
use buffer_pool::frame;
use forest_world::{ForestPass, ForestSpace, fits};
use index_page::{Page, Spot};
use key_tuple::{Fields, Mode};

/// The page of the block's frame.
pub(crate) fn held_page<'p>(space: &ForestSpace, pass: &'p ForestPass, block: u32) -> &'p Page
    requires own { IsForest space.now × IsPassOf space.now pass.now }
    requires held { (index : ℕ) × HoldsSome (view pass.now) block index }
    requires known { IsKnown pass.now }
    ensures { (index level : ℕ) (h : HoldsPage (view pass.now) block index level)
        → result.now ≡ h.is.page }
{
    page_of(frame(space, pass, block))
}

/// The child of the row whose range has the tuple's position.
pub(crate) fn picked_child<T: Fields>(
    space: &ForestSpace,
    pass: &ForestPass,
    block: u32,
    index: u32,
    tuple: &T,
    mode: Mode,
) -> u32
    requires own { IsForest space.now × IsPassOf space.now pass.now }
    requires fields { length (T.fields_of tuple.now) ≤ fields_for (shape_of_pass pass.now) index }
    requires held { HoldsAbove (view pass.now) block index }
    requires known { IsKnown pass.now }
    ensures { (level : ℕ) (h : HoldsPage (view pass.now) block index (suc level)) → PicksChild
        (cut_in (shape_of_pass pass.now) index mode (T.fields_of tuple.now)) h.is.page.rows result }
{
    let _ = index;
    fits(pass);
    child_in(held_page(space, pass, block), tuple, mode)
}

/// Whether the page's bounds have the tuple's position.
pub(crate) fn is_within<T: Fields>(
    space: &ForestSpace,
    pass: &ForestPass,
    block: u32,
    index: u32,
    tuple: &T,
    mode: Mode,
) -> bool
    requires own { IsForest space.now × IsPassOf space.now pass.now }
    requires fields { length (T.fields_of tuple.now) ≤ fields_for (shape_of_pass pass.now) index }
    requires held { HoldsSome (view pass.now) block index }
    requires known { IsKnown pass.now }
    ensures { IsTrue result → (level : ℕ) (h : HoldsPage (view pass.now) block index level)
        → HasCutWithin h.frame
        (cut_in (shape_of_pass pass.now) index mode (T.fields_of tuple.now)) }
{
    let _ = index;
    let fields = held_page(space, pass, block).head().fields;
    has_position(frame(space, pass, block), fields, tuple, mode)
}

/// The mode's own spot on the page.
pub(crate) fn spot_on<T: Fields>(
    space: &ForestSpace,
    pass: &ForestPass,
    block: u32,
    index: u32,
    tuple: &T,
    mode: Mode,
) -> Spot
    requires own { IsForest space.now × IsPassOf space.now pass.now }
    requires fields { length (T.fields_of tuple.now) ≤ fields_for (shape_of_pass pass.now) index }
    requires held { HoldsSome (view pass.now) block index }
    requires known { IsKnown pass.now }
    ensures { (level : ℕ) (h : HoldsPage (view pass.now) block index level)
        → Finds mode (T.fields_of tuple.now) h.is.page.rows result }
{
    let _ = index;
    held_page(space, pass, block).search(tuple, mode)
}

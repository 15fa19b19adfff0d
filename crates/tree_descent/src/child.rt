//! One level down, with the parent in hand.
ghost use Rattle.std.specs.Prelude.{◌≡◌, ◌+◌, ◌≤◌, [], ◌∷◌, length};
ghost use Rattle.latch_space.specs.declared.TheConstants.{MAX_HELD};
ghost use Rattle.latch_space.specs.Has.{IsKnown};
ghost use Rattle.latch_space.specs.Passes.{view, count, IsSamePass};
ghost use Rattle.latch_space.specs.Spaces.{IsPassOf};
ghost use Rattle.forest_law.specs.State.{fields_for};
ghost use Rattle.forest_world.specs.Held.{shape_of_pass};
ghost use Rattle.call_law.specs.Hands.{HoldsNoFrameBut, HoldsNoTable};
ghost use Rattle.buffer_pool.specs.Forests.{IsForest, IsFittedTree};
ghost use Rattle.tree_descent.specs.Descents.{HoldsInner, TakesChild};

use crate::picking::picked_child;
use buffer_pool::page_in;
use forest_world::{ForestPass, ForestSpace, fits};
use key_tuple::{Fields, Mode};
use std::sync::Wait;

/// Holds the child of the block's page in whose bounds the tuple's position is, beside the page
/// itself, and answers its block.
pub fn child_for<T: Fields, R: Wait>(
    space: &ForestSpace,
    pass: &mut ForestPass,
    block: u32,
    index: u32,
    tuple: &T,
    mode: Mode,
    wait: &R,
) -> u32
    requires own { IsForest space.now × IsPassOf space.now pass.old }
    requires fields { length (T.fields_of tuple.now) ≤ fields_for (shape_of_pass pass.old) index }
    requires held { HoldsInner (view pass.old) block index mode (T.fields_of tuple.now) }
    requires known { IsKnown pass.old }
    requires frames { HoldsNoFrameBut (view pass.old) (block ∷ []) }
    requires tables { HoldsNoTable (view pass.old) }
    requires room { count pass.old + 3 ≤ MAX_HELD }
    ensures own { IsSamePass pass.old pass.new × IsPassOf space.now pass.new }
    ensures took { TakesChild pass.old block index mode (T.fields_of tuple.now) result pass.new }
    ensures fits { IsFittedTree (view pass.new) }
{
    fits(pass);
    let child = picked_child(space, pass, block, index, tuple, mode);
    page_in(space, pass, child, wait)
}

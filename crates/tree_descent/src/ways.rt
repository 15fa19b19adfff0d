//! One way down. Each page is given back before the next one is taken.
ghost use Rattle.std.specs.Prelude.{ℕ, ◌≡◌, ◌<◌, ◌+◌, ◌≤◌, suc, Bool, [], length};
ghost use Rattle.key_tuple.specs.KeyPlace.{KeyPlace};
ghost use Rattle.latch_space.specs.declared.TheConstants.{MAX_HELD};
ghost use Rattle.latch_space.specs.Has.{IsKnown};
ghost use Rattle.latch_space.specs.Passes.{view, count, IsSamePass};
ghost use Rattle.latch_space.specs.Spaces.{IsPassOf};
ghost use Rattle.forest_law.specs.State.{fields_for};
ghost use Rattle.forest_world.specs.Held.{TreePass, shape_of_pass};
ghost use Rattle.call_law.specs.Hands.{HoldsNoFrameBut, HoldsNoTable};
ghost use Rattle.buffer_pool.specs.Forests.{IsForest, IsFittedTree};
ghost use Rattle.tree_descent.specs.Leaves.{cut_in};
ghost use Rattle.tree_descent.specs.Ways.{HoldsAbove, GoesDown, LooksFor, TriesDown};

use crate::pages::page_of;
use crate::picking::{is_within, picked_child};
use buffer_pool::{frame, give_back, page_if, page_in};
use forest_world::{ForestPass, ForestSpace, fits};
use key_tuple::{Fields, Mode};
use std::sync::Wait;

/// Goes down once, and answers the block of the leaf that has the tuple's position. Where what was
/// read on the way was no longer so when the next page was taken, it was in vain: then it answers
/// `None`, and holds what it held.
pub(crate) fn try_down<T: Fields, R: Wait>(
    space: &ForestSpace,
    pass: &mut ForestPass,
    index: u32,
    tuple: &T,
    mode: Mode,
    wait: &R,
) -> Option<u32>
    requires own { IsForest space.now × IsPassOf space.now pass.old }
    requires index { index < (shape_of_pass pass.old).indexes }
    requires fields { length (T.fields_of tuple.now) ≤ fields_for (shape_of_pass pass.old) index }
    requires known { IsKnown pass.old }
    requires frames { HoldsNoFrameBut (view pass.old) [] }
    requires tables { HoldsNoTable (view pass.old) }
    requires room { count pass.old + 3 ≤ MAX_HELD }
    ensures own { IsSamePass pass.old pass.new × IsPassOf space.now pass.new }
    ensures tried { TriesDown pass.old
        (cut_in (shape_of_pass pass.old) index mode (T.fields_of tuple.now)) index result pass.new }
    ensures fits { IsFittedTree (view pass.new) }
{
    let (mut block, mut level) = take_root(space, pass, index, wait);
    while level > 0 {
        let child = leave(space, pass, block, index, tuple, mode);
        level -= 1;
        block = page_if(space, pass, child, index, level, wait)?;
    }
    if is_within(space, pass, block, index, tuple, mode) {
        fits(pass);
        return Some(block);
    }
    give_back(space, pass, block);
    None
}

/// Takes the root of the index, and answers the block that has it in its frame, and its level.
fn take_root<R: Wait>(
    space: &ForestSpace,
    pass: &mut ForestPass,
    index: u32,
    wait: &R,
) -> (u32, u16)
    requires own { IsForest space.now × IsPassOf space.now pass.old }
    requires index { index < (shape_of_pass pass.old).indexes }
    requires known { IsKnown pass.old }
    requires frames { HoldsNoFrameBut (view pass.old) [] }
    requires tables { HoldsNoTable (view pass.old) }
    requires room { count pass.old + 3 ≤ MAX_HELD }
    ensures own { IsSamePass pass.old pass.new × IsPassOf space.now pass.new }
    ensures took { (cut : KeyPlace → Bool)
        → GoesDown pass.old cut index result.1 result.0 pass.new }
    ensures fits { IsFittedTree (view pass.new) }
{
    fits(pass);
    let block = page_in(space, pass, index, wait);
    (block, page_of(frame(space, pass, block)).head().level)
}

/// Gives the block's page back, and answers the child that the position picks there.
fn leave<T: Fields>(
    space: &ForestSpace,
    pass: &mut ForestPass,
    block: u32,
    index: u32,
    tuple: &T,
    mode: Mode,
) -> u32
    requires own { IsForest space.now × IsPassOf space.now pass.old }
    requires fields { length (T.fields_of tuple.now) ≤ fields_for (shape_of_pass pass.old) index }
    requires held { HoldsAbove (view pass.old) block index }
    requires known { IsKnown pass.old }
    ensures own { IsSamePass pass.old pass.new × IsPassOf space.now pass.new }
    ensures left { (p : TreePass) (level : ℕ)
        → GoesDown p (cut_in (shape_of_pass p) index mode (T.fields_of tuple.now)) index
        (suc level) block pass.old
        → LooksFor p (cut_in (shape_of_pass p) index mode (T.fields_of tuple.now)) index
        level result pass.new }
    ensures fits { IsFittedTree (view pass.new) }
{
    let child = picked_child(space, pass, block, index, tuple, mode);
    give_back(space, pass, block);
    child
}

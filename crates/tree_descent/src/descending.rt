//! The way down from the root to a leaf.
ghost use Rattle.std.specs.Prelude.{◌≡◌, ◌<◌, ◌+◌, ◌≤◌, [], length};
ghost use Rattle.latch_space.specs.declared.TheConstants.{MAX_HELD};
ghost use Rattle.latch_space.specs.Has.{IsKnown};
ghost use Rattle.latch_space.specs.Passes.{view, count, IsSamePass};
ghost use Rattle.latch_space.specs.Spaces.{IsPassOf};
ghost use Rattle.forest_law.specs.State.{fields_for};
ghost use Rattle.forest_world.specs.Held.{shape_of_pass};
ghost use Rattle.call_law.specs.Hands.{HoldsNoFrameBut, HoldsNoTable};
ghost use Rattle.buffer_pool.specs.Forests.{IsForest, IsFittedTree};
ghost use Rattle.tree_descent.specs.Descents.{Descends};

use crate::picking::spot_on;
use crate::ways::try_down;
use crossbeam_utils::Backoff;
use forest_world::{ForestPass, ForestSpace};
use index_page::Spot;
use key_tuple::{Fields, Mode};
use std::sync::Wait;

/// A leaf in hand, and where a search stands on it.
#[derive(Clone, Copy)]
pub struct Leaf {
    /// The block whose frame has the leaf.
    pub block: u32,
    /// The rows around the mode's cut.
    pub spot: Spot,
}

/// Holds the leaf of an index in whose bounds the tuple's position is. Each page is given back before
/// the next one is taken, and no tree is taken: where what was read on the way is no longer so, it
/// begins again at the root. For a tuple with all fields the position is the key itself in every mode.
pub fn descend<T: Fields, R: Wait>(
    space: &ForestSpace,
    pass: &mut ForestPass,
    index: u32,
    tuple: &T,
    mode: Mode,
    wait: &R,
) -> Leaf
    requires own { IsForest space.now × IsPassOf space.now pass.old }
    requires index { index < (shape_of_pass pass.old).indexes }
    requires fields { length (T.fields_of tuple.now) ≤ fields_for (shape_of_pass pass.old) index }
    requires known { IsKnown pass.old }
    requires frames { HoldsNoFrameBut (view pass.old) [] }
    requires tables { HoldsNoTable (view pass.old) }
    requires room { count pass.old + 3 ≤ MAX_HELD }
    ensures own { IsSamePass pass.old pass.new × IsPassOf space.now pass.new }
    ensures went { Descends pass.old index mode (T.fields_of tuple.now) result pass.new }
    ensures fits { IsFittedTree (view pass.new) }
{
    let backoff = Backoff::new();
    for _ in wait.forever() {
        if let Some(block) = try_down(space, pass, index, tuple, mode, wait) {
            let spot = spot_on(space, pass, block, index, tuple, mode);
            return Leaf { block, spot };
        }
        backoff.snooze();
    }
    unreachable!()
}

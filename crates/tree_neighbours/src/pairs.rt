//! The way down to the leaf of a search, and to the leaf beside it.
ghost use Rattle.std.specs.Prelude.{◌≡◌, ◌<◌, ◌+◌, ◌≤◌, [], length};
ghost use Rattle.latch_space.specs.declared.TheConstants.{MAX_HELD};
ghost use Rattle.latch_space.specs.Has.{IsKnown};
ghost use Rattle.latch_space.specs.Passes.{view, count, IsSamePass};
ghost use Rattle.latch_space.specs.Spaces.{IsPassOf};
ghost use Rattle.forest_law.specs.State.{fields_for};
ghost use Rattle.forest_world.specs.Held.{shape_of_pass};
ghost use Rattle.call_law.specs.Hands.{HoldsNoFrameBut, HoldsNoTable};
ghost use Rattle.buffer_pool.specs.Forests.{IsForest, IsFittedTree};
ghost use Rattle.tree_neighbours.specs.Pairs.{DescendsPair, TriesPair};

use crate::beside::{Beside, take_beside};
use crate::side::{row_on, side_of};
use buffer_pool::give_back;
use crossbeam_utils::Backoff;
use forest_world::{ForestPass, ForestSpace};
use key_tuple::{Fields, Mode};
use std::sync::Wait;
use tree_descent::{Leaf, descend};

/// A leaf in hand, and perhaps the leaf beside it.
#[derive(Clone, Copy)]
pub struct LeafPair {
    /// The leaf that has the tuple's position.
    pub leaf: Leaf,
    /// The block of the leaf on the mode's side. It is held where the leaf has no row for the mode
    /// and isn't the last one on this side.
    pub other: Option<u32>,
}

/// Holds the leaf of an index in whose bounds the tuple's position is and, where it has no row for
/// the mode, the leaf on the mode's side. Where that one is to the left and another pass holds it,
/// the leaf is given back, and the way begins again at the root.
pub fn descend_pair<T: Fields, R: Wait>(
    space: &ForestSpace,
    pass: &mut ForestPass,
    index: u32,
    tuple: &T,
    mode: Mode,
    wait: &R,
) -> LeafPair
    requires own { IsForest space.now × IsPassOf space.now pass.old }
    requires index { index < (shape_of_pass pass.old).indexes }
    requires fields { length (T.fields_of tuple.now) ≤ fields_for (shape_of_pass pass.old) index }
    requires known { IsKnown pass.old }
    requires frames { HoldsNoFrameBut (view pass.old) [] }
    requires tables { HoldsNoTable (view pass.old) }
    requires room { count pass.old + 4 ≤ MAX_HELD }
    ensures own { IsSamePass pass.old pass.new × IsPassOf space.now pass.new }
    ensures went { DescendsPair pass.old index mode (T.fields_of tuple.now) result pass.new }
    ensures fits { IsFittedTree (view pass.new) }
{
    let backoff = Backoff::new();
    for _ in wait.forever() {
        if let Some(pair) = try_pair(space, pass, index, tuple, mode, wait) {
            return pair;
        }
        backoff.snooze();
    }
    unreachable!()
}

/// Goes down to the leaf once, and takes the one beside it where that is wanted. Where another pass
/// holds that one, it was in vain: then it answers `None`, and holds what it held.
fn try_pair<T: Fields, R: Wait>(
    space: &ForestSpace,
    pass: &mut ForestPass,
    index: u32,
    tuple: &T,
    mode: Mode,
    wait: &R,
) -> Option<LeafPair>
    requires own { IsForest space.now × IsPassOf space.now pass.old }
    requires index { index < (shape_of_pass pass.old).indexes }
    requires fields { length (T.fields_of tuple.now) ≤ fields_for (shape_of_pass pass.old) index }
    requires known { IsKnown pass.old }
    requires frames { HoldsNoFrameBut (view pass.old) [] }
    requires tables { HoldsNoTable (view pass.old) }
    requires room { count pass.old + 4 ≤ MAX_HELD }
    ensures own { IsSamePass pass.old pass.new × IsPassOf space.now pass.new }
    ensures tried { TriesPair pass.old index mode (T.fields_of tuple.now) result pass.new }
    ensures fits { IsFittedTree (view pass.new) }
{
    let leaf = descend(space, pass, index, tuple, mode, wait);
    let side = side_of(mode);
    if row_on(side, leaf.spot).is_some() {
        return Some(LeafPair { leaf, other: None });
    }
    match take_beside(space, pass, leaf.block, index, side, wait) {
        Beside::AtEnd => Some(LeafPair { leaf, other: None }),
        Beside::Held(other) => Some(LeafPair {
            leaf,
            other: Some(other),
        }),
        Beside::Busy => {
            give_back(space, pass, leaf.block);
            None
        }
    }
}

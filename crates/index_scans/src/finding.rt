//! The leaf of a scan's first piece.
ghost use Rattle.std.specs.Prelude.{◌≡◌, ◌<◌, ◌≤◌, [], ◌∷◌, length};
ghost use Rattle.key_tuple.specs.KeyPlace.{At};
ghost use Rattle.latch_space.specs.Passes.{view, IsSamePass};
ghost use Rattle.latch_space.specs.Spaces.{IsPassOf};
ghost use Rattle.search_info.specs.Passes.{knowledge, HasUnique, IsLearnPassOf, IsSameLearnPass};
ghost use Rattle.forest_law.specs.State.{fields_for};
ghost use Rattle.buffer_pool.specs.Forests.{IsForest, IsFittedTree};
ghost use Rattle.tree_neighbours.specs.LeafHands.{HoldsLeavesAlone};
ghost use Rattle.index_scans.specs.FirstLeaves.{FindsFirst, WentDown, HoldsFirst};

use crate::scan_call::FirstLeaf;
use forest_world::{ForestPass, ForestSpace};
use hash_guess::{Guess, guess};
use key_tuple::{Mode, Tuple};
use leaf_search::{how_of, leaf_is_in_order, learn_leaf, note_of_hit};
use learning::Figures;
use map_history::{How, Note};
use search_info::{LearnPass, Learner};
use std::sync::Wait;
use tree_descent::{Leaf, descend};

/// Holds the leaf that has FROM's position: by one guess, and where that leads nowhere by one way down
/// from the root, of which the index and the leaf's block learn.
pub(crate) fn find_first<R: Wait>(
    space: &ForestSpace,
    pass: &mut ForestPass,
    learner: &Learner,
    learn: &mut LearnPass,
    index: u32,
    from: &Tuple,
    wait: &R,
) -> FirstLeaf
    requires own { IsForest space.now × IsPassOf space.now pass.old }
    requires learner { IsLearnPassOf learner.now learn.old }
    requires index { index < space.now.terms.shape.indexes }
    requires unique { HasUnique learner.now index (fields_for space.now.terms.shape index) }
    requires fields { length from.now.fields ≤ fields_for space.now.terms.shape index }
    requires nothing { HoldsLeavesAlone pass.old [] }
    ensures own { IsSamePass pass.old pass.new × IsPassOf space.now pass.new }
    ensures learner { IsSameLearnPass learn.old learn.new × IsLearnPassOf learner.now learn.new }
    ensures finds { FindsFirst pass.old (knowledge learn.old) index from.now.fields result pass.new
        (knowledge learn.new) }
    ensures holds { HoldsFirst (view pass.new) result.block index (At from.now.fields) result.place }
    ensures only { HoldsLeavesAlone pass.new (result.block ∷ []) }
{
    match guess(space, pass, learner, learn, index, from, Mode::Ge) {
        Guess::Hit {
            block,
            place,
            learn,
            ..
        } => {
            leaf_is_in_order(space, pass, block, index);
            FirstLeaf {
                block,
                place: Some(place),
                how: How::Hit,
                note: note_of_hit(&learn),
            }
        }
        Guess::Miss { cause, .. } => {
            let (leaf, note) = go_down(space, pass, learner, learn, index, from, wait);
            FirstLeaf {
                block: leaf.block,
                place: leaf.spot.after,
                how: how_of(&cause),
                note,
            }
        }
    }
}

/// Goes down from the root to that leaf, of which the index and the leaf's block learn.
fn go_down<R: Wait>(
    space: &ForestSpace,
    pass: &mut ForestPass,
    learner: &Learner,
    learn: &mut LearnPass,
    index: u32,
    from: &Tuple,
    wait: &R,
) -> (Leaf, Note)
    requires own { IsForest space.now × IsPassOf space.now pass.old }
    requires learner { IsLearnPassOf learner.now learn.old }
    requires index { index < space.now.terms.shape.indexes }
    requires unique { HasUnique learner.now index (fields_for space.now.terms.shape index) }
    requires fields { length from.now.fields ≤ fields_for space.now.terms.shape index }
    requires nothing { HoldsLeavesAlone pass.old [] }
    ensures own { IsSamePass pass.old pass.new × IsPassOf space.now pass.new }
    ensures learner { IsSameLearnPass learn.old learn.new × IsLearnPassOf learner.now learn.new }
    ensures went { WentDown pass.old (knowledge learn.old) index from.now.fields result.0 result.1
        pass.new (knowledge learn.new) }
    ensures holds { HoldsFirst (view pass.new) result.0.block index (At from.now.fields)
        result.0.spot.after }
    ensures only { HoldsLeavesAlone pass.new (result.0.block ∷ []) }
{
    from.is_within_limits();
    let leaf = descend(space, pass, index, from, Mode::Ge, wait);
    let figures = Figures {
        low: leaf.spot.low,
        up: leaf.spot.up,
    };
    let note = learn_leaf(
        space, pass, learner, learn, index, leaf.block, &figures, wait,
    );
    leaf_is_in_order(space, pass, leaf.block, index);
    (leaf, note)
}

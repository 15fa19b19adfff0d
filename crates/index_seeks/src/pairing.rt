//! How a seek begins where the hash doesn't lead to its leaf.
ghost use Rattle.std.specs.Prelude.{◌≡◌, ◌<◌, ◌≤◌, length};
ghost use Rattle.latch_space.specs.Passes.{count, IsSamePass};
ghost use Rattle.latch_space.specs.Spaces.{IsPassOf};
ghost use Rattle.search_info.specs.Passes.{knowledge, HasUnique, IsLearnPassOf, IsSameLearnPass};
ghost use Rattle.forest_law.specs.State.{fields_for};
ghost use Rattle.buffer_pool.specs.Forests.{IsForest};
ghost use Rattle.index_seeks.specs.SeekHands.{HoldsLeafPair};
ghost use Rattle.index_seeks.specs.SeekSteps.{FindsPair};

use forest_world::{ForestPass, ForestSpace};
use key_tuple::{Mode, Tuple};
use leaf_search::learn_leaf;
use learning::Figures;
use map_history::Note;
use search_info::{LearnPass, Learner};
use std::sync::Wait;
use tree_neighbours::{LeafPair, descend_pair};

/// Goes down from the root, and holds the leaf that has the tuple's position, and the one beside
/// where the row may be there. The index and the first leaf's block learn from that.
pub(crate) fn find_pair<R: Wait>(
    space: &ForestSpace,
    pass: &mut ForestPass,
    learner: &Learner,
    learn: &mut LearnPass,
    index: u32,
    mode: Mode,
    tuple: &Tuple,
    wait: &R,
) -> (LeafPair, Note)
    requires own { IsForest space.now × IsPassOf space.now pass.old }
    requires learner { IsLearnPassOf learner.now learn.old }
    requires index { index < space.now.terms.shape.indexes }
    requires unique { HasUnique learner.now index (fields_for space.now.terms.shape index) }
    requires fields { length tuple.now.fields ≤ fields_for space.now.terms.shape index }
    requires nothing { count pass.old ≡ 0 }
    ensures own { IsSamePass pass.old pass.new × IsPassOf space.now pass.new }
    ensures learner { IsSameLearnPass learn.old learn.new × IsLearnPassOf learner.now learn.new }
    ensures found { FindsPair pass.old (knowledge learn.old) index mode tuple.now.fields result.0 result.1
        pass.new (knowledge learn.new) }
    ensures held { HoldsLeafPair pass.new index mode tuple.now.fields result.0.leaf result.0.other }
{
    tuple.is_within_limits();
    let pair = descend_pair(space, pass, index, tuple, mode, wait);
    let figures = Figures {
        low: pair.leaf.spot.low,
        up: pair.leaf.spot.up,
    };
    let block = pair.leaf.block;
    let note = learn_leaf(space, pass, learner, learn, index, block, &figures, wait);
    (pair, note)
}

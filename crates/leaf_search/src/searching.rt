//! The leaf of a whole key.
ghost use Rattle.std.specs.Prelude.{◌≡◌, ◌<◌, ◌+◌, ◌≤◌, [], length};
ghost use Rattle.latch_space.specs.declared.TheConstants.{MAX_HELD};
ghost use Rattle.latch_space.specs.Has.{IsKnown};
ghost use Rattle.latch_space.specs.Passes.{view, count, IsSamePass};
ghost use Rattle.latch_space.specs.Spaces.{IsPassOf};
ghost use Rattle.search_info.specs.Passes.{knowledge, HasUnique, IsLearnPassOf, IsSameLearnPass};
ghost use Rattle.forest_law.specs.State.{fields_for};
ghost use Rattle.forest_world.specs.Held.{shape_of_pass};
ghost use Rattle.call_law.specs.Hands.{HoldsNoFrameBut, HoldsNoTable};
ghost use Rattle.buffer_pool.specs.Forests.{IsForest, IsFittedTree};
ghost use Rattle.leaf_search.specs.Hows.{how_of, note_of_hit};
ghost use Rattle.leaf_search.specs.KeySearches.{SearchesKey};

use crate::down::{key_spot, leaf_is_in_order, search_down};
use crate::searched::{KeySearch, Searched};
use forest_world::{ForestPass, ForestSpace};
use hash_guess::{Cause, Guess, guess};
use key_tuple::{Key, Mode};
use map_history::{How, Note};
use search_info::{Learn, LearnPass, Learner};
use std::sync::Wait;
use tree_descent::Leaf;

/// Holds the leaf of an index that has the key in its bounds. The hash is asked first, by one try
/// on the partition of the index and one on a block; where it tells nothing, a way down is gone,
/// and the index and the block learn from it. `mode` is the one that the operation searches with,
/// which tells what is learnt; a spot is always that of the key itself. Where the hash led to the
/// key's row, nothing more is looked up.
pub fn search_key<R: Wait>(
    space: &ForestSpace,
    pass: &mut ForestPass,
    learner: &Learner,
    learn: &mut LearnPass,
    index: u32,
    key: &Key,
    mode: Mode,
    wait: &R,
) -> KeySearch
    requires own { IsForest space.now × IsPassOf space.now pass.old }
    requires learner { IsLearnPassOf learner.now learn.old }
    requires index { index < (shape_of_pass pass.old).indexes }
    requires unique { HasUnique learner.now index (fields_for (shape_of_pass pass.old) index) }
    requires fields { length key.now.tuple ≡ fields_for (shape_of_pass pass.old) index }
    requires known { IsKnown pass.old }
    requires frames { HoldsNoFrameBut (view pass.old) [] }
    requires tables { HoldsNoTable (view pass.old) }
    requires room { count pass.old + 3 ≤ MAX_HELD }
    ensures own { IsSamePass pass.old pass.new × IsPassOf space.now pass.new }
    ensures learner { IsSameLearnPass learn.old learn.new × IsLearnPassOf learner.now learn.new }
    ensures searched { SearchesKey pass.old (knowledge learn.old) index mode key.now.tuple result
        pass.new (knowledge learn.new) }
    ensures fits { IsFittedTree (view pass.new) }
{
    match guess(space, pass, learner, learn, index, key, mode) {
        Guess::Hit {
            block,
            place,
            found,
            learn,
        } => {
            let note = note_of_hit(&learn);
            if found {
                leaf_is_in_order(space, pass, block, index);
                return KeySearch::Row { block, place, note };
            }
            let spot = key_spot(space, pass, block, index, key);
            KeySearch::Leaf(Searched {
                leaf: Leaf { block, spot },
                how: How::Hit,
                note,
            })
        }
        Guess::Miss { cause, .. } => {
            let (leaf, note) = search_down(space, pass, learner, learn, index, key, mode, wait);
            KeySearch::Leaf(Searched {
                leaf,
                how: how_of(&cause),
                note,
            })
        }
    }
}

/// Why a way down was gone, as it is printed.
pub fn how_of(cause: &Cause) -> How
    ensures { result ≡ how_of cause.now }
{
    match cause {
        Cause::Cold => How::Cold,
        Cause::Short { .. } => How::Short,
        Cause::PartBusy { .. } => How::PartBusy,
        Cause::NoEntry { .. } => How::NoEntry,
        Cause::BlockBusy { .. } => How::BlockBusy,
        Cause::Unequal { .. } => How::Unequal,
    }
}

/// What is told of a hit: nothing where it was counted.
pub fn note_of_hit(learn: &Learn) -> Note
    ensures { result ≡ note_of_hit learn.now }
{
    match learn {
        Learn::Learnt { .. } => Note::Dash,
        Learn::Raced { .. } => Note::Raced,
        Learn::Worn => Note::Worn,
    }
}

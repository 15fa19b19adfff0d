//! What a descent to a leaf teaches: counted, and the leaf hashed where that is due.
ghost use Rattle.std.specs.Prelude.{◌≡◌, ◌+◌, ◌≤◌, Some, length};
ghost use Rattle.latch_space.specs.declared.TheConstants.{MAX_HELD};
ghost use Rattle.latch_space.specs.Has.{IsKnown};
ghost use Rattle.latch_space.specs.Passes.{view, count, IsSamePass};
ghost use Rattle.latch_space.specs.Spaces.{IsPassOf};
ghost use Rattle.learning.specs.Bounds.{AreFiguresOf};
ghost use Rattle.search_info.specs.Passes.{knowledge, HasUnique, IsLearnPassOf, IsSameLearnPass};
ghost use Rattle.index_page.specs.Page.{PageRows};
ghost use Rattle.forest_law.specs.State.{fields_for};
ghost use Rattle.forest_world.specs.Held.{shape_of_pass};
ghost use Rattle.call_law.specs.Hands.{HoldsNoTable};
ghost use Rattle.buffer_pool.specs.Forests.{IsForest, IsFittedTree};
ghost use Rattle.tree_descent.specs.Ways.{HoldsPage};
ghost use Rattle.leaf_search.specs.Builds.{SuitsLeaf};
ghost use Rattle.leaf_search.specs.Lessons.{descent_to, CountsDescent, Teaches};

use crate::building::{hash_leaf, keep_figures};
use buffer_pool::frame;
use forest_world::{ForestPass, ForestSpace, Frame, fits};
use learning::{BlockFigures, Figures};
use map_history::Note;
use search_info::{Learn, LearnPass, Learner};
use std::sync::Wait;

/// Counts a descent to the leaf in the block's frame, of which the index and the block learn, and
/// hashes the leaf where that is due. `figures` tell how far the tuple agreed with the rows beside
/// its position. Other leaves may be held meanwhile.
pub fn learn_leaf<R: Wait>(
    space: &ForestSpace,
    pass: &mut ForestPass,
    learner: &Learner,
    learn: &mut LearnPass,
    index: u32,
    block: u32,
    figures: &Figures,
    wait: &R,
) -> Note
    requires own { IsForest space.now × IsPassOf space.now pass.old }
    requires learner { IsLearnPassOf learner.now learn.old }
    requires unique { HasUnique learner.now index (fields_for (shape_of_pass pass.old) index) }
    requires figures { AreFiguresOf (fields_for (shape_of_pass pass.old) index) figures.now }
    requires leaf { HoldsPage (view pass.old) block index 0 }
    requires known { IsKnown pass.old }
    requires tables { HoldsNoTable (view pass.old) }
    requires room { count pass.old + 2 ≤ MAX_HELD }
    ensures own { IsSamePass pass.old pass.new × IsPassOf space.now pass.new }
    ensures learner { IsSameLearnPass learn.old learn.new × IsLearnPassOf learner.now learn.new }
    ensures taught { Teaches pass.old (knowledge learn.old) index block figures.now result
        pass.new (knowledge learn.new) }
    ensures fits { IsFittedTree (view pass.new) }
{
    fits(pass);
    let (learnt, figures) = count_descent(space, pass, learner, learn, index, block, figures);
    match learnt {
        Learn::Learnt { build: true, .. } => hash_leaf(space, pass, index, block, &figures, wait),
        Learn::Learnt { build: false, .. } => {
            keep_figures(space, pass, block, &figures);
            Note::No
        }
        Learn::Raced { .. } => Note::Raced,
        Learn::Worn => Note::Worn,
    }
}

/// Counts the descent, and answers what came of that and the figures of the leaf's block then.
fn count_descent(
    space: &ForestSpace,
    pass: &ForestPass,
    learner: &Learner,
    learn: &mut LearnPass,
    index: u32,
    block: u32,
    figures: &Figures,
) -> (Learn, BlockFigures)
    requires own { IsForest space.now × IsPassOf space.now pass.now }
    requires learner { IsLearnPassOf learner.now learn.old }
    requires unique { HasUnique learner.now index (fields_for (shape_of_pass pass.now) index) }
    requires figures { AreFiguresOf (fields_for (shape_of_pass pass.now) index) figures.now }
    requires leaf { HoldsPage (view pass.now) block index 0 }
    requires known { IsKnown pass.now }
    requires fits { IsFittedTree (view pass.now) }
    ensures learner { IsSameLearnPass learn.old learn.new × IsLearnPassOf learner.now learn.new }
    ensures counted { (h : HoldsPage (view pass.now) block index 0)
        → CountsDescent (knowledge learn.old) index
        (descent_to (shape_of_pass pass.now) index figures.now h.frame h.is.page) result.0 result.1
        (knowledge learn.new) }
    ensures suits { (h : HoldsPage (view pass.now) block index 0) → SuitsLeaf h.frame result.1 }
{
    let leaf = frame(space, pass, block);
    let rows = row_count(leaf);
    let mut block_figures = leaf.figures;
    let unique = learner.unique(index);
    let learnt = learner.after_descent(learn, index, unique, figures, &mut block_figures, rows);
    (learnt, block_figures)
}

/// How many rows the frame's page has.
fn row_count(frame: &Frame) -> u16
    requires { (page : PageRows) × (frame.now.page ≡ Some page) }
    ensures { (page : PageRows) → frame.now.page ≡ Some page → result ≡ length page.rows }
{
    match &frame.page {
        Some(page) => page.count(),
        None => unreachable!(),
    }
}

//! A leaf in hand gets figures, and is hashed as they advise.
ghost use Rattle.std.specs.Prelude.{◌≡◌, ◌≢◌, ◌+◌, ◌≤◌, ◌<◌, ℕ, Some, []};
ghost use Rattle.latch_space.specs.declared.TheConstants.{MAX_HELD};
ghost use Rattle.latch_space.specs.Has.{IsKnown};
ghost use Rattle.latch_space.specs.Passes.{view, count, IsSamePass};
ghost use Rattle.latch_space.specs.Spaces.{IsPassOf};
ghost use Rattle.call_law.specs.Hands.{HoldsNoPart};
ghost use Rattle.buffer_pool.specs.Forests.{IsForest, IsFittedTree};
ghost use Rattle.leaf_search.specs.Builds.{BuiltInHand, HoldsToBuild, HoldsToTeach, EndsHashing};
ghost use Rattle.leaf_search.specs.Builds.{EndsBuild, IsCountedLeaf};
ghost use Rattle.leaf_search.specs.Lessons.{FrameBecomes, note_of_build, with_figures};

use buffer_pool::{frame, frame_back, frame_out};
use forest_world::{ForestPass, ForestSpace, fits, hands_keep_the_hash, shape};
use hash_maintain::{build_frame, count_leaf, give_part_back, hold_part, upkeep_keeps_the_hash};
use hash_upkeep::Build;
use learning::BlockFigures;
use map_history::Note;
use std::sync::Wait;

/// Hashes the leaf as the figures advise, which count no help then.
pub(crate) fn hash_leaf<R: Wait>(
    space: &ForestSpace,
    pass: &mut ForestPass,
    index: u32,
    block: u32,
    figures: &BlockFigures,
    wait: &R,
) -> Note
    requires own { IsForest space.now × IsPassOf space.now pass.old }
    requires teach { HoldsToTeach (view pass.old) block index figures.now }
    requires known { IsKnown pass.old }
    requires parts { HoldsNoPart (view pass.old) }
    requires room { count pass.old + 2 ≤ MAX_HELD }
    ensures own { IsSamePass pass.old pass.new × IsPassOf space.now pass.new }
    ensures hashed { (h : HoldsToTeach (view pass.old) block index figures.now)
        → EndsHashing pass.old index block h.leaf.frame h.leaf.is.page figures.now result pass.new }
    ensures fits { IsFittedTree (view pass.new) }
{
    fits(pass);
    let unhelped = BlockFigures {
        helps: 0,
        ..*figures
    };
    if unhelped.built == Some(unhelped.advice) {
        keep_figures(space, pass, block, &unhelped);
        return Note::Same;
    }
    note_of_build(&build_leaf(space, pass, index, block, &unhelped, wait))
}

/// The leaf's block has these figures then, which is made known.
pub(crate) fn keep_figures(
    space: &ForestSpace,
    pass: &mut ForestPass,
    block: u32,
    figures: &BlockFigures,
)
    requires own { IsForest space.now × IsPassOf space.now pass.old }
    requires teach { (index : ℕ) × HoldsToTeach (view pass.old) block index figures.now }
    requires known { IsKnown pass.old }
    ensures own { IsSamePass pass.old pass.new × IsPassOf space.now pass.new }
    ensures kept { (index : ℕ) (h : HoldsToTeach (view pass.old) block index figures.now)
        → FrameBecomes pass.old block h.leaf.frame (with_figures h.leaf.frame figures.now) []
        pass.new }
    ensures fits { IsFittedTree (view pass.new) }
{
    fits(pass);
    hands_keep_the_hash();
    let mut frame = frame_out(space, pass, block);
    frame.figures = *figures;
    frame_back(space, pass, block, frame);
    space.settle(pass);
}

/// The same, and the leaf is hashed anew, on the partition of the index. The leaf's entries are
/// counted before the partition is taken.
fn build_leaf<R: Wait>(
    space: &ForestSpace,
    pass: &mut ForestPass,
    index: u32,
    block: u32,
    figures: &BlockFigures,
    wait: &R,
) -> Build
    requires own { IsForest space.now × IsPassOf space.now pass.old }
    requires teach { HoldsToTeach (view pass.old) block index figures.now }
    requires differs { figures.now.built ≢ Some figures.now.advice }
    requires known { IsKnown pass.old }
    requires parts { HoldsNoPart (view pass.old) }
    requires room { count pass.old + 2 ≤ MAX_HELD }
    ensures own { IsSamePass pass.old pass.new × IsPassOf space.now pass.new }
    ensures built { (h : HoldsToTeach (view pass.old) block index figures.now)
        → EndsBuild pass.old index block h.leaf.frame h.leaf.is.page figures.now result pass.new }
    ensures fits { IsFittedTree (view pass.new) }
{
    fits(pass);
    upkeep_keeps_the_hash();
    let leaf = frame(space, pass, block);
    let need = count_leaf(space, pass, leaf, block, figures.advice);
    let part = shape(space).part_for(index);
    hold_part(space, pass, part, wait);
    let answer = build_in_hand(space, pass, index, block, figures, need, wait);
    space.settle(pass);
    give_part_back(space, pass, part);
    fits(pass);
    answer
}

/// The same on the partition in hand, before it is made known.
fn build_in_hand<R: Wait>(
    space: &ForestSpace,
    pass: &mut ForestPass,
    index: u32,
    block: u32,
    figures: &BlockFigures,
    need: u32,
    wait: &R,
) -> Build
    requires own { IsForest space.now × IsPassOf space.now pass.old }
    requires build { HoldsToBuild pass.old block index figures.now }
    requires counted { IsCountedLeaf pass.old block figures.now.advice need }
    requires known { IsKnown pass.old }
    requires room { count pass.old < MAX_HELD }
    ensures own { IsSamePass pass.old pass.new × IsPassOf space.now pass.new }
    ensures built { (h : HoldsToBuild pass.old block index figures.now)
        → BuiltInHand pass.old block index figures.now h.teach.leaf.frame h.teach.leaf.is.page
        h.part result pass.new }
{
    fits(pass);
    let _ = index;
    let mut frame = frame_out(space, pass, block);
    frame.figures = *figures;
    let answer = build_frame(space, pass, &mut frame, block, figures.advice, need, wait);
    frame_back(space, pass, block, frame);
    answer
}

/// The note of a build.
fn note_of_build(answer: &Build) -> Note
    ensures { result ≡ note_of_build answer.now }
{
    match answer {
        Build::Built { .. } => Note::Built,
        Build::NotNeeded => Note::Same,
        Build::ArenaFull { .. } => Note::Arena,
    }
}

//! The leaf of a frame that is out of its place in hand is hashed.
ghost use Rattle.std.specs.Prelude.{◌≡◌, ◌≢◌, ◌<◌, ℕ, Some};
ghost use Rattle.index_page.specs.Page.{PageRows};
ghost use Rattle.latch_space.specs.Passes.{count, IsSamePass};
ghost use Rattle.latch_space.specs.Spaces.{IsPassOf};
ghost use Rattle.hash_law.specs.Blocks.{AskFew, HasLeafOf, IsTidy};
ghost use Rattle.forest_law.specs.Hashed.{hash_block};
ghost use Rattle.hash_maintain.specs.Leaves.{frame_built};
ghost use Rattle.hash_maintain.specs.Upkeep.{AreInPlace, BuildsInHand, CountsLeaf, IsLeafExactIn, hashing_as};

use crate::leaves::{leaf_page, rehash};
use crate::parting::{hold_part_out, part_back};
use forest_world::{ForestPass, ForestSpace, Frame, fits, shape};
use hash_upkeep::{Build, Hashing, count_entries, entries_are_owed};
use key_tuple::Params;
use std::sync::Wait;

/// How many entries the leaf of the frame has, if it is hashed with these parameters. Each row's fold
/// is looked up for that, so it is counted before the partition is held.
pub fn count_leaf(
    space: &ForestSpace,
    pass: &ForestPass,
    frame: &Frame,
    block: u32,
    params: Params,
) -> u32
    requires own { IsPassOf space.now pass.now }
    requires page { (page : PageRows) × (frame.now.page ≡ Some page) }
    requires fields { AskFew frame.now.page params }
    ensures counts { CountsLeaf pass.now block params frame.now result }
{
    fits(pass);
    let page = leaf_page(frame);
    let how = Hashing {
        index: page.head().index,
        block,
        params,
        bits: shape(space).fold_bits(),
    };
    count_entries(page, &how)
}

/// Hashes the leaf of the frame with these parameters, with which it has `need` entries: it is hashed
/// so then, or where there is no room not at all. Where it was hashed so, nothing is done.
pub fn build_frame<R: Wait>(
    space: &ForestSpace,
    pass: &mut ForestPass,
    frame: &mut Frame,
    block: u32,
    params: Params,
    need: u32,
    wait: &R,
) -> Build
    requires own { IsPassOf space.now pass.old }
    requires tidy { IsTidy (hash_block frame.old) }
    requires leaf { IsLeafExactIn pass.old block frame.old }
    requires fields { AskFew frame.old.page params }
    requires need { CountsLeaf pass.old block params frame.old need }
    requires place { AreInPlace pass.old }
    requires room { count pass.old < 16 }
    ensures own { IsSamePass pass.old pass.new × IsPassOf space.now pass.new }
    ensures not_needed { frame.old.figures.built ≡ Some params → (result ≡ Build.NotNeeded)
        × (pass.new ≡ pass.old) × (frame.new ≡ frame.old) }
    ensures frame { frame.old.figures.built ≢ Some params → (index : ℕ)
        → HasLeafOf (hash_block frame.old) index
        → frame.new ≡ frame_built result (hashing_as pass.old block index params) frame.old }
    ensures builds { frame.old.figures.built ≢ Some params → (index : ℕ)
        → HasLeafOf (hash_block frame.old) index
        → BuildsInHand pass.old block index params frame.old frame.new result pass.new }
{
    fits(pass);
    entries_are_owed();
    if frame.figures.built == Some(params) {
        return Build::NotNeeded;
    }
    let layout = shape(space);
    let how = Hashing {
        index: leaf_page(frame).head().index,
        block,
        params,
        bits: layout.fold_bits(),
    };
    let part = layout.part_for(how.index);
    let mut partition = hold_part_out(space, pass, part, wait);
    let answer = rehash(&mut partition, frame, &how, need);
    part_back(space, pass, part, partition);
    answer
}

//! The partition of the index that a block is hashed for, held while the block's rows change.
ghost use Rattle.std.specs.Prelude.{◌≡◌, ◌<◌};
ghost use Rattle.latch_space.specs.declared.TheConstants.{MAX_HELD};
ghost use Rattle.latch_space.specs.Has.{IsKnown};
ghost use Rattle.latch_space.specs.Passes.{view, count, IsSamePass};
ghost use Rattle.latch_space.specs.Spaces.{IsPassOf};
ghost use Rattle.forest_law.specs.declared.objects.Frame.{Frame};
ghost use Rattle.forest_world.specs.Held.{shape_of_pass};
ghost use Rattle.call_law.specs.Hands.{HoldsNoPart, KnowsFrame};
ghost use Rattle.buffer_pool.specs.Forests.{IsForest, IsFittedTree};
ghost use Rattle.buffer_pool.specs.Parts.{part_of_index, HoldsPartIf, KnowsPartIf, GivesPartIf};
ghost use Rattle.buffer_pool.specs.Parts.{MayUnhash, UnhashesBlock};

use crate::hands::{frame, frame_back, frame_out};
use forest_world::{ForestPass, ForestSpace, fits, hands_keep_the_hash, shape};
use hash_maintain::{drop_frame, give_part_back, hold_part, upkeep_keeps_the_hash};
use std::sync::Wait;

/// Takes the partition of the index that a block is hashed for, if it is, and answers its number.
/// Rows of a hashed block change while its partition is held.
pub fn hold_part_for<R: Wait>(
    space: &ForestSpace,
    pass: &mut ForestPass,
    hashed: Option<u32>,
    wait: &R,
) -> Option<u32>
    requires own { IsForest space.now × IsPassOf space.now pass.old }
    requires known { IsKnown pass.old }
    requires parts { HoldsNoPart (view pass.old) }
    requires room { count pass.old < MAX_HELD }
    ensures own { IsSamePass pass.old pass.new × IsPassOf space.now pass.new }
    ensures named { result ≡ part_of_index (shape_of_pass pass.old) hashed }
    ensures held { HoldsPartIf pass.old result pass.new }
    ensures fits { IsFittedTree (view pass.new) }
{
    fits(pass);
    let part = shape(space).part_for(hashed?);
    hold_part(space, pass, part, wait);
    fits(pass);
    Some(part)
}

/// Gives the partition back, if there is one, which is what it is known to be.
pub fn give_part_if(space: &ForestSpace, pass: &mut ForestPass, part: Option<u32>)
    requires own { IsForest space.now × IsPassOf space.now pass.old }
    requires known { IsKnown pass.old }
    requires held { KnowsPartIf (view pass.old) part }
    ensures own { IsSamePass pass.old pass.new × IsPassOf space.now pass.new }
    ensures gave { GivesPartIf pass.old part pass.new }
    ensures fits { IsFittedTree (view pass.new) }
{
    if let Some(part) = part {
        give_part_back(space, pass, part);
    }
    fits(pass);
}

/// Takes the block's nodes out of the partition of its index, in a step of its own: the frame isn't
/// hashed then. Its page is to go, with the pool in hand, or is outside the trees.
pub(crate) fn unhash_block<R: Wait>(
    space: &ForestSpace,
    pass: &mut ForestPass,
    block: u32,
    wait: &R,
)
    requires own { IsForest space.now × IsPassOf space.now pass.old }
    requires held { (f : Frame) × KnowsFrame (view pass.old) block f }
    requires may { (f : Frame) → KnowsFrame (view pass.old) block f → MayUnhash (view pass.old) f }
    requires known { IsKnown pass.old }
    requires parts { HoldsNoPart (view pass.old) }
    requires room { count pass.old < MAX_HELD }
    ensures own { IsSamePass pass.old pass.new × IsPassOf space.now pass.new }
    ensures did { UnhashesBlock pass.old block pass.new }
    ensures fits { IsFittedTree (view pass.new) }
{
    fits(pass);
    hands_keep_the_hash();
    upkeep_keeps_the_hash();
    let part = hold_part_for(space, pass, frame(space, pass, block).hashed, wait);
    let mut frame = frame_out(space, pass, block);
    drop_frame(space, pass, &mut frame, block, wait);
    frame_back(space, pass, block, frame);
    space.settle(pass);
    give_part_if(space, pass, part);
}

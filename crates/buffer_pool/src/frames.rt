//! A block's frame is taken, tried and given back.
ghost use Rattle.std.specs.Prelude.{◌<◌, IsTrue, IsFalse};
ghost use Rattle.latch_space.specs.declared.TheConstants.{MAX_HELD};
ghost use Rattle.latch_space.specs.Passes.{view, count, IsSamePass};
ghost use Rattle.latch_space.specs.Spaces.{IsPassOf};
ghost use Rattle.forest_law.specs.Numbers.{frames_of};
ghost use Rattle.forest_world.specs.Held.{shape_of_pass};
ghost use Rattle.buffer_pool.specs.Forests.{IsForest, IsFittedTree};
ghost use Rattle.buffer_pool.specs.Frames.{TakesFrame, TellsFrame, GivesFrame};
ghost use Rattle.buffer_pool.specs.Hands.{LacksFrame, MayGiveBack};

use crate::numbers::frame_number;
use forest_world::{ForestPass, ForestSpace};
use latch_space::Take;
use std::sync::Wait;

/// Tries until the block's frame is taken.
pub fn take_frame<R: Wait>(space: &ForestSpace, pass: &mut ForestPass, block: u32, wait: &R)
    requires own { IsForest space.now × IsPassOf space.now pass.old }
    requires there { block < frames_of (shape_of_pass pass.old) }
    requires lacks { LacksFrame pass.old block }
    requires room { count pass.old < MAX_HELD }
    ensures own { IsSamePass pass.old pass.new × IsPassOf space.now pass.new }
    ensures took { TakesFrame pass.old block pass.new }
    ensures fits { IsFittedTree (view pass.new) }
{
    let number = frame_number(space, pass, block);
    space.take(pass, number, wait);
}

/// Takes the block's frame if nobody holds it at this call's one step.
pub fn try_frame(space: &ForestSpace, pass: &mut ForestPass, block: u32) -> Take
    requires own { IsForest space.now × IsPassOf space.now pass.old }
    requires there { block < frames_of (shape_of_pass pass.old) }
    requires lacks { LacksFrame pass.old block }
    requires room { count pass.old < MAX_HELD }
    ensures own { IsSamePass pass.old pass.new × IsPassOf space.now pass.new }
    ensures did { TellsFrame pass.old block result pass.new }
    ensures fits { IsFittedTree (view pass.new) }
{
    let number = frame_number(space, pass, block);
    space.try_take(pass, number)
}

/// Whether the pass holds the block's frame.
pub(crate) fn holds_frame(space: &ForestSpace, pass: &ForestPass, block: u32) -> bool
    requires own { IsForest space.now × IsPassOf space.now pass.now }
    requires there { block < frames_of (shape_of_pass pass.now) }
    ensures lacks { IsFalse result → LacksFrame pass.now block }
    ensures held { IsTrue result → LacksFrame pass.now block → ⊥ }
{
    pass.holds(frame_number(space, pass, block))
}

/// Gives the block's frame back, which is what it is known to be and has no page outside the
/// trees.
pub fn give_back(space: &ForestSpace, pass: &mut ForestPass, block: u32)
    requires own { IsForest space.now × IsPassOf space.now pass.old }
    requires held { MayGiveBack pass.old block }
    ensures own { IsSamePass pass.old pass.new × IsPassOf space.now pass.new }
    ensures gave { GivesFrame pass.old block pass.new }
    ensures fits { IsFittedTree (view pass.new) }
{
    let number = frame_number(space, pass, block);
    space.release(pass, number);
}

//! The index that one of two blocks is hashed for.
ghost use Rattle.std.specs.Prelude.{◌≡◌};
ghost use Rattle.latch_space.specs.Has.{IsKnown};
ghost use Rattle.latch_space.specs.Passes.{view};
ghost use Rattle.latch_space.specs.Spaces.{IsPassOf};
ghost use Rattle.forest_law.specs.declared.objects.Frame.{Frame};
ghost use Rattle.hash_maintain.specs.Moves.{first_hashed};
ghost use Rattle.call_law.specs.Hands.{KnowsFrame};
ghost use Rattle.buffer_pool.specs.Forests.{IsForest};

use buffer_pool::frame;
use forest_world::{ForestPass, ForestSpace};

/// The index that the first block is hashed for, or else the second.
pub(crate) fn hashed_index(
    space: &ForestSpace,
    pass: &ForestPass,
    from: u32,
    to: u32,
) -> Option<u32>
    requires own { IsForest space.now × IsPassOf space.now pass.now }
    requires from { (f : Frame) × KnowsFrame (view pass.now) from f }
    requires to { (f : Frame) × KnowsFrame (view pass.now) to f }
    requires known { IsKnown pass.now }
    ensures { (f g : Frame) → KnowsFrame (view pass.now) from f → KnowsFrame (view pass.now) to g
        → result ≡ first_hashed f g }
{
    let first = frame(space, pass, from).hashed;
    let second = frame(space, pass, to).hashed;
    match first {
        Some(index) => Some(index),
        None => second,
    }
}

//! The frames of a parent and of two children, merged as plain values.
ghost use Rattle.std.specs.Prelude.{◌≡◌, OnOk, OnErr};
ghost use Rattle.latch_space.specs.Has.{IsKnown};
ghost use Rattle.latch_space.specs.Passes.{IsSamePass};
ghost use Rattle.latch_space.specs.Spaces.{IsPassOf};
ghost use Rattle.buffer_pool.specs.Forests.{IsForest};
ghost use Rattle.tree_smo.specs.Remakes.{IsAsBefore};
ghost use Rattle.tree_shrinking.specs.MergeHands.{SuitsTaken, JoinsHalves};

use forest_world::{ForestPass, ForestSpace};
use key_tuple::NoMemory;
use tree_merging::merge_frames;
use tree_smo::{SplitBlocks, halves_back, halves_out};

/// Merges the frames in hand. After `NoMemory` they are as before.
pub(crate) fn join_halves(
    space: &ForestSpace,
    pass: &mut ForestPass,
    at: SplitBlocks,
) -> Result<(), NoMemory>
    requires own { IsForest space.now × IsPassOf space.now pass.old }
    requires suits { SuitsTaken pass.old at }
    requires known { IsKnown pass.old }
    ensures own { IsSamePass pass.old pass.new × IsPassOf space.now pass.new }
    ensures ok { OnOk result (JoinsHalves pass.old at pass.new) }
    ensures err { OnErr result (IsAsBefore pass.old pass.new) }
{
    let mut hands = halves_out(space, pass, at);
    let outcome = merge_frames(&mut hands.left, &mut hands.right, &mut hands.up);
    halves_back(space, pass, at, hands);
    outcome
}

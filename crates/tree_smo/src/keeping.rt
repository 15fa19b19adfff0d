//! Hashed blocks between which rows moved in hand.
ghost use Rattle.std.specs.Prelude.{◌<◌};
ghost use Rattle.latch_space.specs.declared.TheConstants.{MAX_HELD};
ghost use Rattle.latch_space.specs.Passes.{count, IsSamePass};
ghost use Rattle.latch_space.specs.Spaces.{IsPassOf};
ghost use Rattle.hash_maintain.specs.Upkeep.{AreInPlace};
ghost use Rattle.buffer_pool.specs.Forests.{IsForest};
ghost use Rattle.tree_smo.specs.Keeping.{HasMovedRows, KeepsMovedRows};
ghost use Rattle.tree_smo.specs.PartHeld.{LawsOfMoves};

use buffer_pool::{frame_back, frame_out};
use forest_law::blocks_ask_the_same;
use forest_world::{ForestPass, ForestSpace, fits, hands_keep_the_hash};
use hash_maintain::{move_between, moves_keep_the_hash};
use hash_upkeep::moves_are_covered;
use std::sync::Wait;

/// Keeps up with rows that moved from the frame of the block `from` to that of the block `to`, both in
/// hand, with the partition of their index, which is in hand where one of them is hashed.
pub fn keep_up_between<R: Wait>(
    space: &ForestSpace,
    pass: &mut ForestPass,
    from: u32,
    to: u32,
    wait: &R,
)
    requires own { IsForest space.now × IsPassOf space.now pass.old }
    requires moved { HasMovedRows pass.old from to }
    requires place { AreInPlace pass.old }
    requires room { count pass.old < MAX_HELD }
    ensures own { IsSamePass pass.old pass.new × IsPassOf space.now pass.new }
    ensures kept { (m : HasMovedRows pass.old from to)
        → KeepsMovedRows pass.old from to m pass.new }
{
    fits(pass);
    moves_keep_the_hash();
    let mut gave = frame_out(space, pass, from);
    let mut took = frame_out(space, pass, to);
    move_between(space, pass, &mut gave, from, &mut took, to, wait);
    frame_back(space, pass, from, gave);
    frame_back(space, pass, to, took);
}

/// What a step in which rows move needs of the laws of the hash.
pub fn laws_of_moves()
    ensures { LawsOfMoves }
{
    blocks_ask_the_same();
    hands_keep_the_hash();
    moves_are_covered();
    moves_keep_the_hash();
}

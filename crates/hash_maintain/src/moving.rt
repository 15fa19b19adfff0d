//! Rows that moved between two frames that are out of their places in hand.
ghost use Rattle.std.specs.Prelude.{◌≡◌, ◌<◌, ℕ, None, Some};
ghost use Rattle.latch_space.specs.Passes.{count, IsSamePass};
ghost use Rattle.latch_space.specs.Spaces.{IsPassOf};
ghost use Rattle.hash_law.specs.Blocks.{part_for};
ghost use Rattle.forest_world.specs.Held.{shape_of_pass};
ghost use Rattle.hash_maintain.specs.Moves.{MovedSinceExact, MovesInHand, first_hashed, move_in};
ghost use Rattle.hash_maintain.specs.Upkeep.{AreInPlace};

use crate::moves::rows_moved;
use crate::parting::{hold_part_out, part_back};
use forest_world::{ForestPass, ForestSpace, Frame, fits, shape};
use hash_upkeep::{Move, Upkeep};
use std::sync::Wait;

/// Keeps up with rows that moved from one frame's page to another's, or drops both blocks where there
/// is no room. Where neither frame is hashed, nothing is done.
pub fn move_between<R: Wait>(
    space: &ForestSpace,
    pass: &mut ForestPass,
    from: &mut Frame,
    from_block: u32,
    to: &mut Frame,
    to_block: u32,
    wait: &R,
) -> Upkeep
    requires own { IsPassOf space.now pass.old }
    requires moved { (index : ℕ) → first_hashed from.old to.old ≡ Some index
        → MovedSinceExact pass.old (part_for (shape_of_pass pass.old).parts index)
        (move_in pass.old index from_block to_block from.old to.old) from.old to.old }
    requires place { AreInPlace pass.old }
    requires room { count pass.old < 16 }
    ensures own { IsSamePass pass.old pass.new × IsPassOf space.now pass.new }
    ensures rests { first_hashed from.old to.old ≡ None → (result ≡ Upkeep.Kept)
        × (pass.new ≡ pass.old) × (from.new ≡ from.old) × (to.new ≡ to.old) }
    ensures moves { (index : ℕ) → first_hashed from.old to.old ≡ Some index
        → MovesInHand pass.old (part_for (shape_of_pass pass.old).parts index)
        (move_in pass.old index from_block to_block from.old to.old) from.old to.old from.new to.new
        result pass.new }
{
    fits(pass);
    let layout = shape(space);
    if let Some(index) = first_hashed(from, to) {
        let part = layout.part_for(index);
        let blocks = Move {
            index,
            bits: layout.fold_bits(),
            from: from_block,
            from_built: from.figures.built,
            to: to_block,
            to_built: to.figures.built,
        };
        let mut partition = hold_part_out(space, pass, part, wait);
        let answer = rows_moved(&mut partition, from, to, &blocks);
        part_back(space, pass, part, partition);
        answer
    } else {
        Upkeep::Kept
    }
}

/// The index that the first frame is hashed for, or else the second.
fn first_hashed(from: &Frame, to: &Frame) -> Option<u32>
    ensures { result ≡ first_hashed from.now to.now }
{
    match from.hashed {
        Some(index) => Some(index),
        None => to.hashed,
    }
}

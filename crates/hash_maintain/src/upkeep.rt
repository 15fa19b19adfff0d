//! A frame that is out of its place in hand, and its partition, which is found there or taken.
ghost use Rattle.std.specs.Prelude.{◌≡◌, ◌<◌, None, Some};
ghost use Rattle.latch_space.specs.Passes.{count, IsSamePass};
ghost use Rattle.latch_space.specs.Spaces.{IsPassOf};
ghost use Rattle.hash_law.specs.Blocks.{IsTidy, part_for};
ghost use Rattle.hash_upkeep.specs.declared.hashing.Hashing.{Hashing};
ghost use Rattle.hash_upkeep.specs.Upkeep.{upkeep_of};
ghost use Rattle.forest_law.specs.Hashed.{hash_block};
ghost use Rattle.forest_world.specs.Held.{shape_of_pass};
ghost use Rattle.hash_maintain.specs.Leaves.{HasRowInFrame, kept_frame, unhashed, without_row};
ghost use Rattle.hash_maintain.specs.Upkeep.{AreInPlace, HasRoomWhereHashed, IsExactWhereHashed};
ghost use Rattle.hash_maintain.specs.Upkeep.{KeepsUpInHand};
ghost use Rattle.hash_maintain.specs.Upkeep.{KeepsUpWithRow, hashing_in};

use crate::leaves::{hashing_of, row_came, row_goes, unhash};
use crate::parting::{hold_part_out, part_back};
use forest_world::{ForestPass, ForestSpace, Frame, fits, shape};
use hash_upkeep::{Upkeep, entries_are_owed};
use index_page::Place;
use std::sync::Wait;

/// Takes the block's nodes out of its partition, which is then in hand, and unhashes its frame. Where
/// the frame isn't hashed, nothing is done.
pub fn drop_frame<R: Wait>(
    space: &ForestSpace,
    pass: &mut ForestPass,
    frame: &mut Frame,
    block: u32,
    wait: &R,
)
    requires own { IsPassOf space.now pass.old }
    requires tidy { IsTidy (hash_block frame.old) }
    requires exact { IsExactWhereHashed pass.old block frame.old }
    requires place { AreInPlace pass.old }
    requires room { HasRoomWhereHashed pass.old frame.old }
    ensures own { IsSamePass pass.old pass.new × IsPassOf space.now pass.new }
    ensures frame { frame.new ≡ unhashed frame.old }
    ensures rests { frame.old.hashed ≡ None → pass.new ≡ pass.old }
    ensures drops { (how : Hashing) → hashing_in pass.old block frame.old ≡ Some how
        → KeepsUpInHand pass.old (part_for (shape_of_pass pass.old).parts how.index) block frame.new
        pass.new }
{
    fits(pass);
    entries_are_owed();
    let layout = shape(space);
    if let Some(how) = hashing_of(frame, block, layout.fold_bits()) {
        let part = layout.part_for(how.index);
        let mut partition = hold_part_out(space, pass, part, wait);
        unhash(&mut partition, frame, &how);
        part_back(space, pass, part, partition);
    }
}

/// Keeps up with the row at a place of the frame's leaf, which came, or drops the block where there is
/// no room. Where the frame isn't hashed, nothing is done.
pub fn insert_in_frame<R: Wait>(
    space: &ForestSpace,
    pass: &mut ForestPass,
    frame: &mut Frame,
    block: u32,
    place: Place,
    wait: &R,
) -> Upkeep
    requires own { IsPassOf space.now pass.old }
    requires tidy { IsTidy (hash_block frame.old) }
    requires row { HasRowInFrame frame.old place }
    requires exact { IsExactWhereHashed pass.old block (without_row place frame.old) }
    requires place { AreInPlace pass.old }
    requires room { count pass.old < 16 }
    ensures own { IsSamePass pass.old pass.new × IsPassOf space.now pass.new }
    ensures frame { frame.new ≡ kept_frame result frame.old }
    ensures rests { frame.old.hashed ≡ None → (pass.new ≡ pass.old) × (result ≡ Upkeep.Kept) }
    ensures keeps { (how : Hashing) → hashing_in pass.old block frame.old ≡ Some how
        → KeepsUpWithRow pass.old block place how frame.old frame.new
        (λ spare brought driven. upkeep_of spare driven brought) result pass.new }
{
    fits(pass);
    entries_are_owed();
    let layout = shape(space);
    if let Some(how) = hashing_of(frame, block, layout.fold_bits()) {
        let part = layout.part_for(how.index);
        let mut partition = hold_part_out(space, pass, part, wait);
        let answer = row_came(&mut partition, frame, place, &how);
        part_back(space, pass, part, partition);
        answer
    } else {
        Upkeep::Kept
    }
}

/// Keeps up with the row at a place of the frame's leaf, which is about to go. There is room for that.
/// Where the frame isn't hashed, nothing is done.
pub fn delete_in_frame<R: Wait>(
    space: &ForestSpace,
    pass: &mut ForestPass,
    frame: &mut Frame,
    block: u32,
    place: Place,
    wait: &R,
) -> Upkeep
    requires own { IsPassOf space.now pass.old }
    requires tidy { IsTidy (hash_block frame.old) }
    requires row { HasRowInFrame frame.old place }
    requires exact { IsExactWhereHashed pass.old block frame.old }
    requires place { AreInPlace pass.old }
    requires room { count pass.old < 16 }
    ensures own { IsSamePass pass.old pass.new × IsPassOf space.now pass.new }
    ensures frame { frame.new ≡ kept_frame result frame.old }
    ensures rests { frame.old.hashed ≡ None → (pass.new ≡ pass.old) × (result ≡ Upkeep.Kept) }
    ensures keeps { (how : Hashing) → hashing_in pass.old block frame.old ≡ Some how
        → KeepsUpWithRow pass.old block place how frame.old (without_row place frame.new)
        (λ spare brought driven. upkeep_of spare brought driven) result pass.new }
    ensures kept { result ≡ Upkeep.Kept }
{
    fits(pass);
    entries_are_owed();
    let layout = shape(space);
    if let Some(how) = hashing_of(frame, block, layout.fold_bits()) {
        let part = layout.part_for(how.index);
        let mut partition = hold_part_out(space, pass, part, wait);
        let answer = row_goes(&mut partition, frame, place, &how);
        part_back(space, pass, part, partition);
        answer
    } else {
        Upkeep::Kept
    }
}

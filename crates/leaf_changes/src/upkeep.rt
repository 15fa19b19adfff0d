//! The partition of the leaf in hand: held, kept up with, and given back.
ghost use Rattle.std.specs.Prelude.{◌≡◌};
ghost use Rattle.latch_space.specs.Passes.{view, count, IsSamePass};
ghost use Rattle.latch_space.specs.Spaces.{IsPassOf};
ghost use Rattle.leaf_changes.specs.Hashed.{GivesBoth, GivesPartOf, HoldsAtRest, HoldsLeafAndPart};
ghost use Rattle.leaf_changes.specs.Hashed.{HoldsHashed, HoldsRowBack, HoldsRowCame, HoldsRowToGo};
ghost use Rattle.leaf_changes.specs.Hashed.{HoldsToChange, IsBack};
ghost use Rattle.leaf_changes.specs.Hashed.{KeepsRowThatCame, KeepsRowToGo, Settles};
ghost use Rattle.leaf_changes.specs.Holds.{HoldsFreshAlone};

use crate::tree_call::TreeCall;
use buffer_pool::{frame_back, frame_out, give_back, hold_part_for};
use forest_law::blocks_ask_the_same;
use forest_world::{ForestPass, fits};
use hash_maintain::{delete_in_frame, give_part_back, insert_in_frame, upkeep_keeps_the_hash};
use index_page::Place;
use std::sync::Wait;
use tree_descent::Leaf;

impl<R: Wait> TreeCall<'_, R> {
    /// Holds besides the leaf in hand the partition of the index that it is hashed for, if it is:
    /// rows of a hashed leaf change while that is held.
    pub fn hold_to_change(&self, pass: &mut ForestPass, leaf: &Leaf) -> Option<u32>
        requires own { IsPassOf self.now.space.now pass.old }
        requires alone { HoldsFreshAlone pass.old leaf.now.block self.now.index
            self.now.key.now.tuple leaf.now.spot }
        ensures own { IsSamePass pass.old pass.new × IsPassOf self.now.space.now pass.new }
        ensures took { HoldsToChange pass.old self.now.index self.now.key.now.tuple leaf.now result
            pass.new }
        ensures held { HoldsHashed pass.new leaf.now.block self.now.index self.now.key.now.tuple
            leaf.now.spot }
    {
        let hashed = self.frame(pass, leaf.block).hashed;
        hold_part_for(self.space, pass, hashed, self.wait)
    }

    /// Keeps up with the row at the place, which came to the leaf.
    pub(crate) fn row_came(&self, pass: &mut ForestPass, block: u32, place: Place)
        requires own { IsPassOf self.now.space.now pass.old }
        requires held { HoldsRowCame pass.old block place }
        ensures own { IsSamePass pass.old pass.new × IsPassOf self.now.space.now pass.new }
        ensures kept { KeepsRowThatCame pass.old block place pass.new }
    {
        fits(pass);
        blocks_ask_the_same();
        upkeep_keeps_the_hash();
        let mut frame = frame_out(self.space, pass, block);
        insert_in_frame(self.space, pass, &mut frame, block, place, self.wait);
        frame_back(self.space, pass, block, frame);
    }

    /// Keeps up with the row at the place, which is about to go from the leaf.
    pub(crate) fn row_goes(&self, pass: &mut ForestPass, block: u32, place: Place)
        requires own { IsPassOf self.now.space.now pass.old }
        requires held { HoldsRowToGo pass.old block place }
        ensures own { IsSamePass pass.old pass.new × IsPassOf self.now.space.now pass.new }
        ensures kept { KeepsRowToGo pass.old block place pass.new }
    {
        fits(pass);
        blocks_ask_the_same();
        upkeep_keeps_the_hash();
        let mut frame = frame_out(self.space, pass, block);
        delete_in_frame(self.space, pass, &mut frame, block, place, self.wait);
        frame_back(self.space, pass, block, frame);
    }

    /// Keeps up with the row at the place, which is back on the leaf, and makes known what is in
    /// hand.
    pub(crate) fn come_back(&self, pass: &mut ForestPass, block: u32, place: Place)
        requires own { IsPassOf self.now.space.now pass.old }
        requires held { HoldsRowBack pass.old block place }
        ensures own { IsSamePass pass.old pass.new × IsPassOf self.now.space.now pass.new }
        ensures back { IsBack pass.old self.now.index block pass.new }
    {
        self.row_came(pass, block, place);
        self.settle(pass, block);
    }
}

impl<R> TreeCall<'_, R> {
    /// Makes known what is in hand, where the leaf is hashed otherwise and no row has changed.
    pub(crate) fn settle(&self, pass: &mut ForestPass, block: u32)
        requires own { IsPassOf self.now.space.now pass.old }
        requires held { HoldsAtRest pass.old block }
        ensures own { IsSamePass pass.old pass.new × IsPassOf self.now.space.now pass.new }
        ensures did { Settles pass.old self.now.index block pass.new }
    {
        blocks_ask_the_same();
        self.space.settle(pass);
    }

    /// Gives the partition back, if there is one, and then the leaf.
    pub fn let_both_go(&self, pass: &mut ForestPass, block: u32, part: Option<u32>)
        requires own { IsPassOf self.now.space.now pass.old }
        requires held { HoldsLeafAndPart pass.old block part }
        ensures own { IsSamePass pass.old pass.new × IsPassOf self.now.space.now pass.new }
        ensures nothing { count pass.new ≡ 0 }
        ensures gave { GivesBoth pass.old block part pass.new }
    {
        self.give_part(pass, block, part);
        give_back(self.space, pass, block);
    }

    /// Gives the partition back, if there is one.
    fn give_part(&self, pass: &mut ForestPass, block: u32, part: Option<u32>)
        requires own { IsPassOf self.now.space.now pass.old }
        requires held { HoldsLeafAndPart pass.old block part }
        ensures own { IsSamePass pass.old pass.new × IsPassOf self.now.space.now pass.new }
        ensures gave { GivesPartOf pass.old part pass.new }
    {
        let _ = block;
        if let Some(part) = part {
            give_part_back(self.space, pass, part);
        }
    }
}

//! The leaf that is held is changed. No step is made here.
ghost use Rattle.std.specs.Prelude.{◌≤◌, IfOk, IfErr, IsSome};
ghost use Rattle.clock_law.specs.ModifyClock.{last_clock};
ghost use Rattle.latch_space.specs.Passes.{IsSamePass};
ghost use Rattle.latch_space.specs.Spaces.{IsPassOf};
ghost use Rattle.leaf_changes.specs.Changes.{HasSpotIn, FindsRow, HoldsLacking, HoldsInserted};
ghost use Rattle.leaf_changes.specs.Changes.{HoldsRefusing, KnowsSame, HoldsPutRow, TookBack};
ghost use Rattle.leaf_changes.specs.Changes.{HoldsRowAt, TookOut, HoldsRowAsLong, RowIsSet};
ghost use Rattle.leaf_changes.specs.Lengthening.{HoldsRowToGrow, GrowsRow, StaysUngrown};
ghost use Rattle.leaf_changes.specs.Lengthening.{HoldsSomePage, IsRestored};

use crate::tree_call::TreeCall;
use buffer_pool::{frame_back, frame_out};
use forest_world::{ForestPass, Frame};
use index_page::{PageError, Place, Spot};
use key_tuple::{Key, Value};
use leaf_rows::{
    GrownRow, LeafBefore, delete_row, grow_value, put_back, put_row, rewrite_row, take_back,
};
use page_view::find_key;
use tree_descent::Leaf;

impl<R> TreeCall<'_, R> {
    /// Puts the key's row in at its spot, and tells its place. After an error the leaf is as
    /// before.
    pub(crate) fn insert(
        &self,
        pass: &mut ForestPass,
        leaf: &Leaf,
        value: &Value,
    ) -> Result<Place, PageError>
        requires own { IsPassOf self.now.space.now pass.old }
        requires held { HoldsLacking pass.old leaf.now.block self.now.index self.now.key.now.tuple
            leaf.now.spot }
        ensures own { IsSamePass pass.old pass.new × IsPassOf self.now.space.now pass.new }
        ensures same { KnowsSame pass.old pass.new leaf.now.block }
        ensures ok { IfOk result (λ place. HoldsInserted pass.new leaf.now.block self.now.index
            place self.now.key.now.tuple value.now) }
        ensures err { IfErr result (λ e. HoldsRefusing pass.new leaf.now.block self.now.index
            self.now.key.now.tuple value.now e) }
    {
        let mut frame = frame_out(self.space, pass, leaf.block);
        let result = put_row(&mut frame, &leaf.spot, self.key, value);
        frame_back(self.space, pass, leaf.block, frame);
        result
    }

    /// Takes a row out again that `insert` put in at the place. How the leaf is hashed stays.
    pub(crate) fn take_back(&self, pass: &mut ForestPass, block: u32, place: Place)
        requires own { IsPassOf self.now.space.now pass.old }
        requires held { HoldsPutRow pass.old block place }
        ensures own { IsSamePass pass.old pass.new × IsPassOf self.now.space.now pass.new }
        ensures same { KnowsSame pass.old pass.new block }
        ensures back { TookBack pass.old pass.new block place }
    {
        let mut frame = frame_out(self.space, pass, block);
        take_back(&mut frame, place);
        frame_back(self.space, pass, block, frame);
    }

    /// Deletes the row at a place.
    pub(crate) fn delete(&self, pass: &mut ForestPass, block: u32, place: Place)
        requires own { IsPassOf self.now.space.now pass.old }
        requires held { HoldsRowAt pass.old block place }
        ensures own { IsSamePass pass.old pass.new × IsPassOf self.now.space.now pass.new }
        ensures same { KnowsSame pass.old pass.new block }
        ensures out { TookOut pass.old pass.new block place }
    {
        let mut frame = frame_out(self.space, pass, block);
        delete_row(&mut frame, place);
        frame_back(self.space, pass, block, frame);
    }

    /// Gives the row at a place a value that is no longer.
    pub(crate) fn rewrite(&self, pass: &mut ForestPass, block: u32, place: Place, value: &Value)
        requires own { IsPassOf self.now.space.now pass.old }
        requires held { HoldsRowAsLong pass.old block place value.now }
        ensures own { IsSamePass pass.old pass.new × IsPassOf self.now.space.now pass.new }
        ensures same { KnowsSame pass.old pass.new block }
        ensures set { RowIsSet pass.old pass.new block place value.now }
    {
        let mut frame = frame_out(self.space, pass, block);
        rewrite_row(&mut frame, place, value);
        frame_back(self.space, pass, block, frame);
    }

    /// Gives the row at the place a longer value, and tells where it stands then and what the leaf
    /// was. After an error it is as before.
    pub(crate) fn lengthen(
        &self,
        pass: &mut ForestPass,
        block: u32,
        place: Place,
        value: &Value,
    ) -> Result<GrownRow, PageError>
        requires own { IsPassOf self.now.space.now pass.old }
        requires held { HoldsRowToGrow pass.old block place value.now }
        ensures own { IsSamePass pass.old pass.new × IsPassOf self.now.space.now pass.new }
        ensures same { KnowsSame pass.old pass.new block }
        ensures ok { IfOk result (λ grown. GrowsRow pass.old pass.new block place value.now grown) }
        ensures err { IfErr result (λ e. StaysUngrown pass.old pass.new block place value.now e) }
    {
        let mut frame = frame_out(self.space, pass, block);
        let result = grow_value(self.alloc, &mut frame, place, value);
        frame_back(self.space, pass, block, frame);
        result
    }

    /// Makes the leaf what it was before `lengthen`. How it is hashed stays.
    pub(crate) fn restore(&self, pass: &mut ForestPass, block: u32, before: LeafBefore)
        requires own { IsPassOf self.now.space.now pass.old }
        requires held { HoldsSomePage pass.old block }
        requires before { IsSome before.page }
        ensures own { IsSamePass pass.old pass.new × IsPassOf self.now.space.now pass.new }
        ensures same { KnowsSame pass.old pass.new block }
        ensures back { IsRestored pass.old pass.new block before }
    {
        let mut frame = frame_out(self.space, pass, block);
        put_back(&mut frame, before);
        frame_back(self.space, pass, block, frame);
    }
}

/// The place of the key's row on the frame's leaf.
pub(crate) fn find_row(frame: &Frame, spot: &Spot, key: &Key) -> Option<Place>
    requires { HasSpotIn frame.now key.now.tuple spot.now }
    ensures { FindsRow frame.now key.now.tuple spot.now result }
{
    has_clock(frame);
    match &frame.page {
        Some(page) => {
            page.is_in_order();
            find_key(page, key, spot)
        }
        None => unreachable!(),
    }
}

/// The clock is at most at its last value.
fn has_clock(frame: &Frame)
    ensures { frame.now.clock ≤ last_clock }
{
    let _clock = frame.clock;
}

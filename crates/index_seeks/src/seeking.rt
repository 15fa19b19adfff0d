//! The row that a mode asks for.
ghost use Rattle.std.specs.Prelude.{◌≡◌, Some, None, IfSome};
ghost use Rattle.latch_space.specs.Passes.{view, count, IsSamePass};
ghost use Rattle.latch_space.specs.Spaces.{IsPassOf};
ghost use Rattle.map_history.specs.Told.{columns_told};
ghost use Rattle.forest_world.specs.Held.{shape_of_pass};
ghost use Rattle.buffer_pool.specs.AsTaken.{NoException};
ghost use Rattle.tree_neighbours.specs.Pairs.{DescendsPair};
ghost use Rattle.engine_law.specs.Says.{columns_by};
ghost use Rattle.index_seeks.specs.SeekHands.{HoldsLast, HoldsBothLeaves, HoldsLeafPair};
ghost use Rattle.index_seeks.specs.SeekSteps.{EndsFromLeaf, SeeksFrom, TellsByWay, TriesSeek};

use crate::looking::{page_of, reply_if, take_row};
use crate::seek_call::{SeekCall, Stand};
use buffer_pool::frame;
use crossbeam_utils::Backoff;
use forest_world::ForestPass;
use map_history::{RowBuf, Told};
use std::sync::Wait;
use tree_descent::Leaf;
use tree_neighbours::{LeafPair, descend_pair};

impl<R: Wait> SeekCall<'_, R> {
    /// Looks for the row that the mode asks for, on the leaves in hand first, which are given back.
    /// Then it begins again at the root until it is answered.
    pub(crate) fn seek(&self, pass: &mut ForestPass, pair: &LeafPair, out: &mut RowBuf) -> Told
        requires own { IsPassOf self.now.space.now pass.old }
        requires held { HoldsLeafPair pass.old self.now.index self.now.mode self.now.tuple.now.fields
            pair.now.leaf pair.now.other }
        ensures own { IsSamePass pass.old pass.new × IsPassOf self.now.space.now pass.new }
        ensures nothing { count pass.new ≡ 0 }
        ensures told { SeeksFrom (shape_of_pass pass.old) (view pass.old) (view pass.new)
            pair.now.leaf.block self.now.index self.now.mode self.now.tuple.now.fields result out.new }
        ensures columns { columns_told result ≡ columns_by self.now.found }
    {
        match self.look_on(pass, pair, out) {
            Some(told) => told,
            None => self.seek_again(pass, out),
        }
    }

    /// Looks for the row on leaves to which a way leads, and begins again at the root until it is
    /// answered.
    fn seek_again(&self, pass: &mut ForestPass, out: &mut RowBuf) -> Told
        requires own { IsPassOf self.now.space.now pass.old }
        requires nothing { count pass.old ≡ 0 }
        ensures own { IsSamePass pass.old pass.new × IsPassOf self.now.space.now pass.new }
        ensures nothing { count pass.new ≡ 0 }
        ensures told { TellsByWay NoException (view pass.old) (view pass.new) self.now.index
            self.now.mode self.now.tuple.now.fields result out.new }
        ensures columns { columns_told result ≡ columns_by self.now.found }
    {
        let backoff = Backoff::new();
        for _ in self.wait.forever() {
            if let Some(told) = self.try_seek(pass, out) {
                return told;
            }
            backoff.snooze();
        }
        unreachable!()
    }

    /// One try of that. It answers `None` where it is to begin again.
    fn try_seek(&self, pass: &mut ForestPass, out: &mut RowBuf) -> Option<Told>
        requires own { IsPassOf self.now.space.now pass.old }
        requires nothing { count pass.old ≡ 0 }
        ensures own { IsSamePass pass.old pass.new × IsPassOf self.now.space.now pass.new }
        ensures nothing { count pass.new ≡ 0 }
        ensures tried { TriesSeek NoException (view pass.old) (view pass.new) self.now.index
            self.now.mode self.now.tuple.now.fields result out.new }
        ensures columns { IfSome result (λ told. columns_told told
            ≡ columns_by self.now.found) }
    {
        let pair = self.go_down(pass);
        self.look_on(pass, &pair, out)
    }

    /// Looks for the row on the leaves in hand, and gives them back. It answers `None` where the
    /// seek is to begin again.
    fn look_on(&self, pass: &mut ForestPass, pair: &LeafPair, out: &mut RowBuf) -> Option<Told>
        requires own { IsPassOf self.now.space.now pass.old }
        requires held { HoldsLeafPair pass.old self.now.index self.now.mode self.now.tuple.now.fields
            pair.now.leaf pair.now.other }
        ensures own { IsSamePass pass.old pass.new × IsPassOf self.now.space.now pass.new }
        ensures nothing { count pass.new ≡ 0 }
        ensures ends { EndsFromLeaf (shape_of_pass pass.old) (view pass.old) (view pass.new)
            pair.now.leaf.block self.now.index self.now.mode self.now.tuple.now.fields result out.new }
        ensures columns { IfSome result (λ told. columns_told told
            ≡ columns_by self.now.found) }
    {
        match pair.other {
            None => self.end_on(pass, &pair.leaf, out),
            Some(other) => self.go_beside(pass, &pair.leaf, other, out),
        }
    }

    /// Goes down from the root, and holds the leaf, and the one beside where the row may be there.
    fn go_down(&self, pass: &mut ForestPass) -> LeafPair
        requires own { IsPassOf self.now.space.now pass.old }
        requires nothing { count pass.old ≡ 0 }
        ensures own { IsSamePass pass.old pass.new × IsPassOf self.now.space.now pass.new }
        ensures went { DescendsPair pass.old self.now.index self.now.mode self.now.tuple.now.fields result
            pass.new }
        ensures held { HoldsLeafPair pass.new self.now.index self.now.mode self.now.tuple.now.fields result.leaf
            result.other }
    {
        descend_pair(
            self.space, pass, self.index, self.tuple, self.mode, self.wait,
        )
    }

    /// Answers by the leaf alone, which has the row or is the last one.
    fn end_on(&self, pass: &mut ForestPass, leaf: &Leaf, out: &mut RowBuf) -> Option<Told>
        requires own { IsPassOf self.now.space.now pass.old }
        requires held { HoldsLast pass.old self.now.index self.now.mode self.now.tuple.now.fields
            leaf.now }
        ensures own { IsSamePass pass.old pass.new × IsPassOf self.now.space.now pass.new }
        ensures nothing { count pass.new ≡ 0 }
        ensures ends { EndsFromLeaf (shape_of_pass pass.old) (view pass.old) (view pass.new)
            leaf.now.block self.now.index self.now.mode self.now.tuple.now.fields result out.new }
        ensures columns { IfSome result (λ told. columns_told told
            ≡ columns_by self.now.found) }
    {
        let page = page_of(frame(self.space, pass, leaf.block));
        let found = take_row(page, &leaf.spot, self.mode, self.tuple, out);
        let told = self.tell(pass, reply_if(found), out, None);
        self.leave(pass, leaf.block);
        told
    }

    /// Answers by the leaf beside, or walks on from it where that has no row either.
    fn go_beside(
        &self,
        pass: &mut ForestPass,
        leaf: &Leaf,
        other: u32,
        out: &mut RowBuf,
    ) -> Option<Told>
        requires own { IsPassOf self.now.space.now pass.old }
        requires held { HoldsBothLeaves pass.old self.now.index self.now.mode self.now.tuple.now.fields
            leaf.now other }
        ensures own { IsSamePass pass.old pass.new × IsPassOf self.now.space.now pass.new }
        ensures nothing { count pass.new ≡ 0 }
        ensures ends { EndsFromLeaf (shape_of_pass pass.old) (view pass.old) (view pass.new)
            leaf.now.block self.now.index self.now.mode self.now.tuple.now.fields result out.new }
        ensures columns { IfSome result (λ told. columns_told told
            ≡ columns_by self.now.found) }
    {
        let stand = self.stand_on(pass, other, out, None);
        self.leave(pass, leaf.block);
        match stand {
            Stand::On(walk) => self.walk(pass, walk, out),
            Stand::Ends(told) => {
                self.leave(pass, other);
                told
            }
        }
    }
}

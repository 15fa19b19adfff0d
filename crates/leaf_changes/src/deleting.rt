//! A row taken out.
ghost use Rattle.std.specs.Prelude.{◌≡◌, None};
ghost use Rattle.latch_space.specs.Passes.{view, IsSamePass};
ghost use Rattle.latch_space.specs.Spaces.{IsPassOf};
ghost use Rattle.map_history.specs.Map as map;
ghost use Rattle.map_history.specs.Operation.{Make};
ghost use Rattle.map_history.specs.Told.{columns_told};
ghost use Rattle.index_law.specs.Meanings.{lent_row};
ghost use Rattle.leaf_changes.specs.Changes.{HoldsOldRow};
ghost use Rattle.leaf_changes.specs.Hashed.{HoldsHashed};
ghost use Rattle.engine_law.specs.Says.{columns_by, SaysOnce};
ghost use Rattle.leaf_changes.specs.Says.{CanSay, AnswersHolding};
ghost use Rattle.latch_space.specs.Has.{SameHands};

use crate::changing::find_row;
use crate::committing::Becomes;
use crate::saying::made;
use crate::tree_call::TreeCall;
use forest_world::ForestPass;
use index_law::ChangeRef;
use index_page::Place;
use latch_space::LogFull;
use map_history::{OpRef, Reply, Told};
use std::marker::Brand;
use std::sync::Wait;
use tree_descent::Leaf;

impl<R: Wait> TreeCall<'_, R> {
    /// Takes the row of the key out, if the index has it and its list has room, while the leaf is
    /// held.
    pub fn del_held(&self, pass: &mut ForestPass, leaf: &Leaf) -> Told
        requires own { IsPassOf self.now.space.now pass.old }
        requires held { HoldsHashed pass.old leaf.now.block self.now.index self.now.key.now.tuple
            leaf.now.spot }
        ensures own { IsSamePass pass.old pass.new × IsPassOf self.now.space.now pass.new }
        ensures did { AnswersHolding pass.old pass.new leaf.now.block self.now.index
            (Make (map.Del self.now.key.now.tuple)) result (lent_row None) }
        ensures columns { columns_told result ≡ columns_by self.now.found }
    {
        match find_row(self.frame(pass, leaf.block), &leaf.spot, self.key) {
            Some(place) => {
                self.row_goes(pass, leaf.block, place);
                self.del_row::<Brand>(pass, leaf.block, place)
            }
            None => self.say_of_del(pass, Reply::Absent),
        }
    }

    /// Commits that the row at the place goes, with which the partition has kept up, and takes it
    /// out then. Nobody else can look at the leaf in between. At a full list the row stays.
    fn del_row<X: Becomes>(&self, pass: &mut ForestPass, block: u32, place: Place) -> Told
        requires own { IsPassOf self.now.space.now pass.old }
        requires block { X.block ≡ block }
        requires held { HoldsOldRow pass.old block self.now.index place self.now.key.now.tuple
            X.leaf }
        ensures own { IsSamePass pass.old pass.new × IsPassOf self.now.space.now pass.new }
        ensures did { AnswersHolding pass.old pass.new block self.now.index
            (Make (map.Del self.now.key.now.tuple)) result (lent_row None) }
        ensures columns { columns_told result ≡ columns_by self.now.found }
    {
        match self.write_ahead::<X>(pass, ChangeRef::Del { key: self.key }) {
            Ok(point) => {
                self.delete(pass, block, place);
                made(self.found, point)
            }
            Err(LogFull(count)) => {
                self.come_back(pass, block, place);
                self.say_of_del(pass, Reply::LogFull(count))
            }
        }
    }
}

impl<R> TreeCall<'_, R> {
    /// Answers the del without a change.
    fn say_of_del(&self, pass: &mut ForestPass, reply: Reply) -> Told
        requires own { IsPassOf self.now.space.now pass.old }
        requires held { CanSay pass.old self.now.index self.now.key.now.tuple
            (Make (map.Del self.now.key.now.tuple)) reply (lent_row None) }
        ensures own { IsSamePass pass.old pass.new × IsPassOf self.now.space.now pass.new }
        ensures did { SaysOnce (view pass.old) (view pass.new) self.now.index
            (Make (map.Del self.now.key.now.tuple)) result (lent_row None) }
        ensures kept { SameHands pass.old pass.new }
        ensures columns { columns_told result ≡ columns_by self.now.found }
    {
        let op = OpRef::Del {
            index: self.index,
            key: self.key,
        };
        self.say(pass, op, reply, None)
    }
}

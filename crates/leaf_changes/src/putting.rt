//! A new row.
ghost use Rattle.std.specs.Prelude.{◌≡◌, IfOk, IfErr, OnErr, None};
ghost use Rattle.latch_space.specs.Passes.{IsSamePass};
ghost use Rattle.latch_space.specs.Spaces.{IsPassOf};
ghost use Rattle.map_history.specs.Map as map;
ghost use Rattle.map_history.specs.Operation.{Make};
ghost use Rattle.map_history.specs.Told.{columns_told};
ghost use Rattle.index_law.specs.Meanings.{lent_row};
ghost use Rattle.latch_space.specs.Has.{IsKnown};
ghost use Rattle.leaf_changes.specs.Changes.{HoldsNewRow, HoldsNewRowAt, HoldsRefusing, HoldsToPut};
ghost use Rattle.leaf_changes.specs.Changes.{KnowsAsMuch, RefusesHolding};
ghost use Rattle.leaf_changes.specs.Hashed.{HoldsHashed, IsBack};
ghost use Rattle.engine_law.specs.Says.{columns_by};
ghost use Rattle.leaf_changes.specs.Says.{AnswersHolding};

use crate::changing::find_row;
use crate::saying::made;
use crate::tree_call::TreeCall;
use forest_world::ForestPass;
use index_law::ChangeRef;
use index_page::{PageError, Place};
use key_tuple::Value;
use latch_space::LogFull;
use map_history::{OpRef, Reply, Told};
use std::sync::Wait;
use tree_descent::Leaf;

impl<R: Wait> TreeCall<'_, R> {
    /// Puts a new row in while the leaf is held. Nothing is answered where it takes no row.
    pub fn put_held(
        &self,
        pass: &mut ForestPass,
        leaf: &Leaf,
        most: u64,
        value: &Value,
    ) -> Result<Told, PageError>
        requires own { IsPassOf self.now.space.now pass.old }
        requires most { most ≡ self.now.space.now.terms.max_changes }
        requires held { HoldsHashed pass.old leaf.now.block self.now.index self.now.key.now.tuple
            leaf.now.spot }
        ensures own { IsSamePass pass.old pass.new × IsPassOf self.now.space.now pass.new }
        ensures ok { IfOk result (λ told. AnswersHolding pass.old pass.new leaf.now.block
            self.now.index (Make (map.Put self.now.key.now.tuple value.now)) told (lent_row None)) }
        ensures columns { IfOk result (λ told. columns_told told ≡ columns_by self.now.found) }
        ensures err { IfErr result (λ e. RefusesHolding pass.old pass.new leaf.now.block
            self.now.index self.now.key.now.tuple value.now e) }
    {
        let op = OpRef::Put {
            index: self.index,
            key: self.key,
            value,
        };
        let found = find_row(self.frame(pass, leaf.block), &leaf.spot, self.key);
        if found.is_some() {
            return Ok(self.say(pass, op, Reply::Duplicate, None));
        }
        if self.is_full(pass, most) {
            return Ok(self.say(pass, op, Reply::LogFull(most), None));
        }
        match self.put_in(pass, leaf, value) {
            Ok(place) => Ok(self.commit_put(pass, leaf.block, place, value)),
            Err(refusal) => Err(refusal),
        }
    }

    /// Puts the row in, and keeps up with it.
    fn put_in(&self, pass: &mut ForestPass, leaf: &Leaf, value: &Value) -> Result<Place, PageError>
        requires own { IsPassOf self.now.space.now pass.old }
        requires held { HoldsToPut pass.old leaf.now.block self.now.index self.now.key.now.tuple
            leaf.now.spot }
        ensures own { IsSamePass pass.old pass.new × IsPassOf self.now.space.now pass.new }
        ensures same { KnowsAsMuch pass.old pass.new }
        ensures ok { IfOk result (λ place. HoldsNewRow pass.new leaf.now.block self.now.index place
            self.now.key.now.tuple value.now) }
        ensures err { IfErr result (λ e. HoldsRefusing pass.new leaf.now.block self.now.index
            self.now.key.now.tuple value.now e) }
        ensures known { OnErr result (IsKnown pass.new) }
    {
        match self.insert(pass, leaf, value) {
            Ok(place) => {
                self.row_came(pass, leaf.block, place);
                Ok(place)
            }
            Err(refusal) => Err(refusal),
        }
    }

    /// Commits the row that was put in at the place, or takes it back where the list is full.
    fn commit_put(&self, pass: &mut ForestPass, block: u32, place: Place, value: &Value) -> Told
        requires own { IsPassOf self.now.space.now pass.old }
        requires held { HoldsNewRow pass.old block self.now.index place self.now.key.now.tuple
            value.now }
        ensures own { IsSamePass pass.old pass.new × IsPassOf self.now.space.now pass.new }
        ensures did { AnswersHolding pass.old pass.new block self.now.index
            (Make (map.Put self.now.key.now.tuple value.now)) result (lent_row None) }
        ensures columns { columns_told result ≡ columns_by self.now.found }
    {
        let key = self.key;
        match self.commit(pass, ChangeRef::Put { key, value }) {
            Ok(point) => made(self.found, point),
            Err(LogFull(count)) => {
                self.take_out(pass, block, place);
                let index = self.index;
                let op = OpRef::Put { index, key, value };
                self.say(pass, op, Reply::LogFull(count), None)
            }
        }
    }

    /// Takes the row out again that was put in at the place, and keeps up with that.
    fn take_out(&self, pass: &mut ForestPass, block: u32, place: Place)
        requires own { IsPassOf self.now.space.now pass.old }
        requires held { HoldsNewRowAt pass.old block place }
        ensures own { IsSamePass pass.old pass.new × IsPassOf self.now.space.now pass.new }
        ensures back { IsBack pass.old self.now.index block pass.new }
    {
        self.row_goes(pass, block, place);
        self.take_back(pass, block, place);
        self.settle(pass, block);
    }
}

//! Another value for a row.
ghost use Rattle.std.specs.Prelude.{◌≡◌, IfOk, IfErr, None};
ghost use Rattle.latch_space.specs.Has.{SameHands};
ghost use Rattle.latch_space.specs.Passes.{view, IsSamePass};
ghost use Rattle.latch_space.specs.Spaces.{IsPassOf};
ghost use Rattle.map_history.specs.Map as map;
ghost use Rattle.map_history.specs.Operation.{Make};
ghost use Rattle.map_history.specs.Told.{columns_told};
ghost use Rattle.index_law.specs.Meanings.{lent_row};
ghost use Rattle.leaf_changes.specs.Changes.{HoldsRowOf, HoldsRowToSet, RefusesHolding};
ghost use Rattle.leaf_changes.specs.Hashed.{HoldsHashed};
ghost use Rattle.engine_law.specs.Says.{columns_by, SaysOnce};
ghost use Rattle.leaf_changes.specs.Says.{CanSay, AnswersHolding};

use crate::changing::find_row;
use crate::committing::Becomes;
use crate::saying::made;
use crate::tree_call::TreeCall;
use forest_world::ForestPass;
use index_law::ChangeRef;
use index_page::{PageError, Place};
use key_tuple::Value;
use latch_space::LogFull;
use leaf_rows::value_len;
use map_history::{OpRef, Reply, Told};
use std::marker::Brand;
use std::sync::Wait;
use tree_descent::Leaf;

impl<R: Wait> TreeCall<'_, R> {
    /// Sets the value of the key's row while the leaf is held. Nothing is answered where the leaf
    /// has no room for a longer one.
    pub fn set_held(
        &self,
        pass: &mut ForestPass,
        leaf: &Leaf,
        most: u64,
        value: &Value,
    ) -> Result<Told, PageError>
        requires own { IsPassOf self.now.space.now pass.old }
        requires most { most ≡ self.now.space.now.terms.max_changes }
        requires held { HoldsHashed pass.old leaf.now.block self.now.index self.now.key.now.tuple
            leaf.now.spot }
        ensures own { IsSamePass pass.old pass.new × IsPassOf self.now.space.now pass.new }
        ensures ok { IfOk result (λ told. AnswersHolding pass.old pass.new leaf.now.block
            self.now.index (Make (map.Set self.now.key.now.tuple value.now)) told
            (lent_row None)) }
        ensures columns { IfOk result (λ told. columns_told told ≡ columns_by self.now.found) }
        ensures err { IfErr result (λ e. RefusesHolding pass.old pass.new leaf.now.block
            self.now.index self.now.key.now.tuple value.now e) }
    {
        match find_row(self.frame(pass, leaf.block), &leaf.spot, self.key) {
            Some(place) => self.set_row(pass, leaf.block, place, most, value),
            None => Ok(self.say_of_set(pass, value, Reply::Absent)),
        }
    }

    /// The same of the row at the place.
    fn set_row(
        &self,
        pass: &mut ForestPass,
        block: u32,
        place: Place,
        most: u64,
        value: &Value,
    ) -> Result<Told, PageError>
        requires own { IsPassOf self.now.space.now pass.old }
        requires most { most ≡ self.now.space.now.terms.max_changes }
        requires held { HoldsRowOf pass.old block self.now.index place self.now.key.now.tuple }
        ensures own { IsSamePass pass.old pass.new × IsPassOf self.now.space.now pass.new }
        ensures ok { IfOk result (λ told. AnswersHolding pass.old pass.new block self.now.index
            (Make (map.Set self.now.key.now.tuple value.now)) told (lent_row None)) }
        ensures columns { IfOk result (λ told. columns_told told ≡ columns_by self.now.found) }
        ensures err { IfErr result (λ e. RefusesHolding pass.old pass.new block self.now.index
            self.now.key.now.tuple value.now e) }
    {
        let before = value_len(self.frame(pass, block), place);
        if value.as_bytes().len() <= before {
            return Ok(self.set_in_place::<Brand>(pass, block, place, value));
        }
        if self.is_full(pass, most) {
            return Ok(self.say_of_set(pass, value, Reply::LogFull(most)));
        }
        self.grow_row(pass, block, place, value)
    }

    /// Commits that the row at the place gets a value that is no longer, and writes it then. Nobody
    /// else can look at the leaf in between. At a full list the row stays as it is.
    fn set_in_place<X: Becomes>(
        &self,
        pass: &mut ForestPass,
        block: u32,
        place: Place,
        value: &Value,
    ) -> Told
        requires own { IsPassOf self.now.space.now pass.old }
        requires block { X.block ≡ block }
        requires held { HoldsRowToSet pass.old block self.now.index place self.now.key.now.tuple
            value.now X.leaf }
        ensures own { IsSamePass pass.old pass.new × IsPassOf self.now.space.now pass.new }
        ensures did { AnswersHolding pass.old pass.new block self.now.index
            (Make (map.Set self.now.key.now.tuple value.now)) result (lent_row None) }
        ensures columns { columns_told result ≡ columns_by self.now.found }
    {
        let key = self.key;
        match self.write_ahead::<X>(pass, ChangeRef::Set { key, value }) {
            Ok(point) => {
                self.rewrite(pass, block, place, value);
                made(self.found, point)
            }
            Err(LogFull(count)) => self.say_of_set(pass, value, Reply::LogFull(count)),
        }
    }
}

impl<R> TreeCall<'_, R> {
    /// Answers the set without a change.
    pub(crate) fn say_of_set(&self, pass: &mut ForestPass, value: &Value, reply: Reply) -> Told
        requires own { IsPassOf self.now.space.now pass.old }
        requires held { CanSay pass.old self.now.index self.now.key.now.tuple
            (Make (map.Set self.now.key.now.tuple value.now)) reply (lent_row None) }
        ensures own { IsSamePass pass.old pass.new × IsPassOf self.now.space.now pass.new }
        ensures did { SaysOnce (view pass.old) (view pass.new) self.now.index
            (Make (map.Set self.now.key.now.tuple value.now)) result (lent_row None) }
        ensures kept { SameHands pass.old pass.new }
        ensures columns { columns_told result ≡ columns_by self.now.found }
    {
        let op = OpRef::Set {
            index: self.index,
            key: self.key,
            value,
        };
        self.say(pass, op, reply, None)
    }
}

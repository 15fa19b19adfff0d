//! A longer value for a row, which may come to another place.
ghost use Rattle.std.specs.Prelude.{◌≡◌, IfOk, IfErr, OnOk, None};
ghost use Rattle.latch_space.specs.Passes.{IsSamePass};
ghost use Rattle.latch_space.specs.Spaces.{IsPassOf};
ghost use Rattle.map_history.specs.Map as map;
ghost use Rattle.map_history.specs.Operation.{Make};
ghost use Rattle.map_history.specs.Told.{columns_told};
ghost use Rattle.index_law.specs.Meanings.{lent_row};
ghost use Rattle.leaf_changes.specs.Changes.{HoldsRowOf, KnowsAsMuch, RefusesHolding};
ghost use Rattle.leaf_changes.specs.Hashed.{IsBack};
ghost use Rattle.leaf_changes.specs.Lengthening.{HoldsGrownRow, HoldsGrownRowAt, IsLongerIn};
ghost use Rattle.engine_law.specs.Says.{columns_by};
ghost use Rattle.leaf_changes.specs.Says.{AnswersHolding};

use crate::saying::made;
use crate::tree_call::TreeCall;
use forest_world::ForestPass;
use index_law::ChangeRef;
use index_page::{PageError, Place};
use key_tuple::Value;
use latch_space::LogFull;
use leaf_rows::GrownRow;
use map_history::{Reply, Told};
use std::sync::Wait;

impl<R: Wait> TreeCall<'_, R> {
    /// Gives the row at the place the longer value, and commits that. Nothing is answered where the
    /// leaf has no room for it.
    pub(crate) fn grow_row(
        &self,
        pass: &mut ForestPass,
        block: u32,
        place: Place,
        value: &Value,
    ) -> Result<Told, PageError>
        requires own { IsPassOf self.now.space.now pass.old }
        requires held { HoldsRowOf pass.old block self.now.index place self.now.key.now.tuple }
        requires longer { IsLongerIn pass.old block place value.now }
        ensures own { IsSamePass pass.old pass.new × IsPassOf self.now.space.now pass.new }
        ensures ok { IfOk result (λ told. AnswersHolding pass.old pass.new block self.now.index
            (Make (map.Set self.now.key.now.tuple value.now)) told (lent_row None)) }
        ensures columns { IfOk result (λ told. columns_told told ≡ columns_by self.now.found) }
        ensures err { IfErr result (λ e. RefusesHolding pass.old pass.new block self.now.index
            self.now.key.now.tuple value.now e) }
    {
        match self.move_row(pass, block, place, value) {
            Ok(grown) => Ok(self.commit_set(pass, block, place, grown, value)),
            Err(refusal) => Err(refusal),
        }
    }

    /// Gives the row the longer value, and keeps up with it: its entry goes from where it stood and
    /// comes to where it stands. After a refusal it stays what it was.
    fn move_row(
        &self,
        pass: &mut ForestPass,
        block: u32,
        place: Place,
        value: &Value,
    ) -> Result<GrownRow, PageError>
        requires own { IsPassOf self.now.space.now pass.old }
        requires held { HoldsRowOf pass.old block self.now.index place self.now.key.now.tuple }
        requires longer { IsLongerIn pass.old block place value.now }
        ensures own { IsSamePass pass.old pass.new × IsPassOf self.now.space.now pass.new }
        ensures ok { IfOk result (λ grown. HoldsGrownRow pass.new block self.now.index place
            self.now.key.now.tuple value.now grown) }
        ensures same { OnOk result (KnowsAsMuch pass.old pass.new) }
        ensures err { IfErr result (λ e. RefusesHolding pass.old pass.new block self.now.index
            self.now.key.now.tuple value.now e) }
    {
        self.row_goes(pass, block, place);
        match self.lengthen(pass, block, place, value) {
            Ok(grown) => {
                self.row_came(pass, block, grown.place);
                Ok(grown)
            }
            Err(refusal) => {
                self.come_back(pass, block, place);
                Err(refusal)
            }
        }
    }

    /// Commits the longer value that the row got, or makes the leaf what it was where the list is
    /// full.
    fn commit_set(
        &self,
        pass: &mut ForestPass,
        block: u32,
        place: Place,
        grown: GrownRow,
        value: &Value,
    ) -> Told
        requires own { IsPassOf self.now.space.now pass.old }
        requires held { HoldsGrownRow pass.old block self.now.index place self.now.key.now.tuple
            value.now grown }
        ensures own { IsSamePass pass.old pass.new × IsPassOf self.now.space.now pass.new }
        ensures did { AnswersHolding pass.old pass.new block self.now.index
            (Make (map.Set self.now.key.now.tuple value.now)) result (lent_row None) }
        ensures columns { columns_told result ≡ columns_by self.now.found }
    {
        let key = self.key;
        match self.commit(pass, ChangeRef::Set { key, value }) {
            Ok(point) => made(self.found, point),
            Err(LogFull(count)) => {
                self.shrink_row(pass, block, place, grown);
                self.say_of_set(pass, value, Reply::LogFull(count))
            }
        }
    }

    /// Makes the leaf what it was before the row at the place grew, and keeps up with that.
    fn shrink_row(&self, pass: &mut ForestPass, block: u32, place: Place, grown: GrownRow)
        requires own { IsPassOf self.now.space.now pass.old }
        requires held { HoldsGrownRowAt pass.old block place grown }
        ensures own { IsSamePass pass.old pass.new × IsPassOf self.now.space.now pass.new }
        ensures back { IsBack pass.old self.now.index block pass.new }
    {
        self.row_goes(pass, block, grown.place);
        self.restore(pass, block, grown.before);
        self.come_back(pass, block, place);
    }
}

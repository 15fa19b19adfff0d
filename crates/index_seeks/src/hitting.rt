//! A row to which the hash led.
ghost use Rattle.std.specs.Prelude.{◌≡◌};
ghost use Rattle.latch_space.specs.Passes.{count, IsSamePass};
ghost use Rattle.latch_space.specs.Spaces.{IsPassOf};
ghost use Rattle.map_history.specs.Told.{columns_told};
ghost use Rattle.engine_law.specs.Says.{columns_by};
ghost use Rattle.index_seeks.specs.SeekHands.{HoldsHitAlone};
ghost use Rattle.index_seeks.specs.SeekSteps.{AnswersHit};

use crate::looking::page_of;
use crate::seek_call::SeekCall;
use buffer_pool::frame;
use forest_world::ForestPass;
use index_page::Place;
use map_history::{Reply, RowBuf, Told};

impl<R> SeekCall<'_, R> {
    /// Answers by the row at the place of the leaf in hand, and gives that back.
    pub(crate) fn end_on_hit(
        &self,
        pass: &mut ForestPass,
        block: u32,
        place: Place,
        out: &mut RowBuf,
    ) -> Told
        requires own { IsPassOf self.now.space.now pass.old }
        requires held { HoldsHitAlone pass.old self.now.index self.now.mode self.now.tuple.now.fields
            block place }
        ensures own { IsSamePass pass.old pass.new × IsPassOf self.now.space.now pass.new }
        ensures nothing { count pass.new ≡ 0 }
        ensures told { AnswersHit pass.old block self.now.index self.now.mode self.now.tuple.now.fields
            result out.new pass.new }
        ensures columns { columns_told result ≡ columns_by self.now.found }
    {
        let page = page_of(frame(self.space, pass, block));
        page.is_in_order();
        let row = page.row(place);
        out.fill(&row, row.value());
        let Some(told) = self.tell(pass, Reply::Found, out, None) else {
            unreachable!()
        };
        self.leave(pass, block);
        told
    }
}

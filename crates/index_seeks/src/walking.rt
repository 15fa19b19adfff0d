//! The walk of a seek: from leaf to leaf, while each is without a row.
ghost use Rattle.std.specs.Prelude.{◌≡◌, [], ◌∷◌, IfSome};
ghost use Rattle.latch_space.specs.Passes.{view, count, IsSamePass};
ghost use Rattle.latch_space.specs.Spaces.{IsPassOf};
ghost use Rattle.map_history.specs.Told.{columns_told};
ghost use Rattle.forest_world.specs.Held.{shape_of_pass};
ghost use Rattle.index_seeks.specs.SeekHands.{StandsOn, WalksAt};
ghost use Rattle.tree_neighbours.specs.LeafHands.{HoldsLeavesAlone};
ghost use Rattle.engine_law.specs.Says.{columns_by};
ghost use Rattle.index_seeks.specs.SeekSteps.{EndsSeek, WalksThen, TellsColumns};

use crate::seek_call::{SeekCall, Stand, Walk};
use forest_world::ForestPass;
use map_history::{Reply, RowBuf, Told};
use std::sync::Wait;
use tree_neighbours::{Beside, side_of, take_beside};

impl<R: Wait> SeekCall<'_, R> {
    /// Goes on from leaf to leaf until one has a row or none is left. It answers `None`, and holds
    /// nothing, where the list has changed meanwhile, or another pass holds a leaf to the left.
    pub(crate) fn walk(&self, pass: &mut ForestPass, from: Walk, out: &mut RowBuf) -> Option<Told>
        requires own { IsPassOf self.now.space.now pass.old }
        requires walks { WalksAt pass.old self.now.index self.now.mode self.now.tuple.now.fields from }
        ensures own { IsSamePass pass.old pass.new × IsPassOf self.now.space.now pass.new }
        ensures nothing { count pass.new ≡ 0 }
        ensures ends { EndsSeek (shape_of_pass pass.old) (view pass.old) (view pass.new)
            self.now.index self.now.mode self.now.tuple.now.fields result out.new }
        ensures columns { IfSome result (λ told. columns_told told
            ≡ columns_by self.now.found) }
    {
        let mut here = from;
        for _ in self.wait.forever() {
            match self.step(pass, here, out) {
                Stand::On(next) => here = next,
                Stand::Ends(told) => return told,
            }
        }
        unreachable!()
    }

    /// Goes on by one leaf, and holds that alone then.
    fn step(&self, pass: &mut ForestPass, from: Walk, out: &mut RowBuf) -> Stand
        requires own { IsPassOf self.now.space.now pass.old }
        requires walks { WalksAt pass.old self.now.index self.now.mode self.now.tuple.now.fields from }
        ensures own { IsSamePass pass.old pass.new × IsPassOf self.now.space.now pass.new }
        ensures then { WalksThen pass.old pass.new self.now.index self.now.mode self.now.tuple.now.fields
            result out.new }
        ensures columns { TellsColumns (columns_by self.now.found) result }
    {
        let side = side_of(self.mode);
        match take_beside(self.space, pass, from.block, self.index, side, self.wait) {
            Beside::Held(next) => {
                self.leave(pass, from.block);
                self.step_onto(pass, next, from.point, out)
            }
            Beside::AtEnd => {
                let told = self.tell(pass, Reply::Absent, out, Some(from.point));
                self.leave(pass, from.block);
                Stand::Ends(told)
            }
            Beside::Busy => {
                self.leave(pass, from.block);
                Stand::Ends(None)
            }
        }
    }

    /// Looks at the next leaf, and holds it still where it has no row.
    fn step_onto(&self, pass: &mut ForestPass, block: u32, point: u64, out: &mut RowBuf) -> Stand
        requires own { IsPassOf self.now.space.now pass.old }
        requires only { HoldsLeavesAlone pass.old (block ∷ []) }
        requires stands { StandsOn pass.old block self.now.index self.now.mode self.now.tuple.now.fields
            (Some point) }
        ensures own { IsSamePass pass.old pass.new × IsPassOf self.now.space.now pass.new }
        ensures then { WalksThen pass.old pass.new self.now.index self.now.mode self.now.tuple.now.fields
            result out.new }
        ensures columns { TellsColumns (columns_by self.now.found) result }
    {
        match self.stand_on(pass, block, out, Some(point)) {
            Stand::On(walk) => Stand::On(walk),
            Stand::Ends(told) => {
                self.leave(pass, block);
                Stand::Ends(told)
            }
        }
    }
}

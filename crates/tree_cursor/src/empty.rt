//! The piece without rows that ends a scan on the last leaf.
ghost use Rattle.std.specs.Prelude.{[], ◌∷◌};
ghost use Rattle.key_tuple.specs.KeyPlace.{KeyPlace};
ghost use Rattle.latch_space.specs.Passes.{view, IsSamePass};
ghost use Rattle.latch_space.specs.Spaces.{IsPassOf};
ghost use Rattle.tree_neighbours.specs.LeafHands.{HoldsLeavesAlone};
ghost use Rattle.tree_cursor.specs.EmptyPieces.{HoldsEnd, TellsEmpty};
ghost use Rattle.tree_cursor.specs.Pieces.{scan_lent};

use crate::pieces::PieceCall;
use crate::saying::say_piece;
use buffer_pool::give_back;
use forest_world::ForestPass;
use map_history::{OpRef, Rows};

impl<R> PieceCall<'_, R> {
    /// Reads the piece without rows of the leaf in hand, the last one, whose rows are all before the
    /// place that the proof picks, and gives the leaf back. The piece is said of the range from there
    /// to the end of all keys, and its point is told. No row is put in the list.
    pub fn empty_piece(&self, pass: &mut ForestPass, block: u32, rows: &Rows) -> u64
        ghost low: { KeyPlace }
        requires own { IsPassOf self.now.space.now pass.old }
        requires only { HoldsLeavesAlone pass.old (block ∷ []) }
        requires last { HoldsEnd (view pass.old) block self.now.index low }
        ensures own { IsSamePass pass.old pass.new × IsPassOf self.now.space.now pass.new }
        ensures told { TellsEmpty pass.old block self.now.index
            (scan_lent self.now.from self.now.to self.now.limit) low
            (record { how = self.now.how; note = self.now.note }) result pass.new }
        ensures nothing { HoldsLeavesAlone pass.new [] }
    {
        let op = OpRef::Scan {
            index: self.index,
            from: self.from,
            to: self.to,
            limit: self.limit,
        };
        let count = rows.count();
        let point = say_piece(
            self.space, pass, self.index, op, rows, count, self.how, self.note,
        );
        give_back(self.space, pass, block);
        point
    }
}

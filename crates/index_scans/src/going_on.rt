//! The later pieces of a scan.
ghost use Rattle.std.specs.Prelude.{◌≡◌, ◌<◌, [], length, OnOk, OnErr};
ghost use Rattle.latch_space.specs.Passes.{view, IsSamePass};
ghost use Rattle.latch_space.specs.Spaces.{IsPassOf};
ghost use Rattle.tree_neighbours.specs.LeafHands.{HoldsLeavesAlone};
ghost use Rattle.tree_cursor.specs.Pieces.{fields_lent};
ghost use Rattle.index_scans.specs.ScanSteps.{GoesFrom, GoesToEnd, GoesUntil};

use crate::scan_call::ScanCall;
use forest_world::ForestPass;
use key_tuple::NoMemory;
use map_history::{Piece, Rows};
use std::sync::Wait;
use tree_cursor::Cursor;

impl<R: Wait> ScanCall<'_, R> {
    /// Reads the pieces from the cursor on until the scan is at its end. After `NoMemory` the lists
    /// have the pieces that were said.
    pub(crate) fn go_on(
        &self,
        pass: &mut ForestPass,
        mut cursor: Cursor,
        pieces: &mut Vec<Piece>,
        rows: &mut Rows,
    ) -> Result<(), NoMemory>
        requires own { IsPassOf self.now.space.now pass.old }
        requires nothing { HoldsLeavesAlone pass.old [] }
        requires from { GoesFrom (view pass.old) self.now.index cursor }
        requires left { length rows.old < self.now.limit }
        ensures own { IsSamePass pass.old pass.new × IsPassOf self.now.space.now pass.new }
        ensures ok { OnOk result (GoesToEnd pass.old self.now.index self.now.from.now.fields
            (fields_lent self.now.to) self.now.limit cursor pieces.old.items rows.old
            pieces.new.items rows.new pass.new) }
        ensures err { OnErr result (GoesUntil pass.old self.now.index self.now.from.now.fields
            (fields_lent self.now.to) self.now.limit cursor pieces.old.items rows.old
            pieces.new.items rows.new pass.new) }
        ensures nothing { HoldsLeavesAlone pass.new [] }
    {
        for _ in self.wait.forever() {
            if self.take_later(pass, &mut cursor, pieces, rows)? {
                return Ok(());
            }
        }
        unreachable!()
    }
}

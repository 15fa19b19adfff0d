//! A later piece of a scan, from the cursor that the one before left.
ghost use Rattle.std.specs.Prelude.{◌≡◌, ◌<◌, [], ◌∷◌, length, IfOk, OnErr};
ghost use Rattle.latch_space.specs.Passes.{view, IsSamePass};
ghost use Rattle.latch_space.specs.Spaces.{IsPassOf};
ghost use Rattle.tree_neighbours.specs.LeafHands.{HoldsLeavesAlone};
ghost use Rattle.tree_cursor.specs.Pieces.{fields_lent, HoldsStand};
ghost use Rattle.tree_cursor.specs.Starts.{place_of};
ghost use Rattle.index_scans.specs.ScanSteps.{how_of_stale, GoesFrom, FindsAgain, TakesLater, StopsLater};

use crate::scan_call::ScanCall;
use forest_world::ForestPass;
use key_tuple::{Mode, NoMemory};
use map_history::{How, Note, Piece, Rows};
use std::sync::Wait;
use tree_cursor::{Cursor, Restored, Stale, restore};
use tree_descent::descend;

impl<R: Wait> ScanCall<'_, R> {
    /// Reads the next piece from the cursor on, puts it and its rows behind the others, and tells
    /// whether the scan is at its end. Nothing is held before and after. After `NoMemory` nothing is
    /// said, and lists and cursor are as before.
    pub(crate) fn take_later(
        &self,
        pass: &mut ForestPass,
        cursor: &mut Cursor,
        pieces: &mut Vec<Piece>,
        rows: &mut Rows,
    ) -> Result<bool, NoMemory>
        requires own { IsPassOf self.now.space.now pass.old }
        requires nothing { HoldsLeavesAlone pass.old [] }
        requires from { GoesFrom (view pass.old) self.now.index cursor.old }
        requires left { length rows.old < self.now.limit }
        ensures own { IsSamePass pass.old pass.new × IsPassOf self.now.space.now pass.new }
        ensures ok { IfOk result (λ end. TakesLater pass.old self.now.index
            self.now.from.now.fields (fields_lent self.now.to) self.now.limit cursor.old
            pieces.old.items rows.old end pieces.new.items rows.new cursor.new pass.new) }
        ensures err { OnErr result (StopsLater pass.old self.now.index pass.new) }
        ensures lists { OnErr result ((pieces.new.items ≡ pieces.old.items)
            × (rows.new ≡ rows.old)) }
        ensures nothing { HoldsLeavesAlone pass.new [] }
    {
        pieces.reserve(1)?;
        let left = self.limit - rows.count() as u32;
        let (block, how) = self.find_again(pass, cursor);
        let call = self.piece_call(how, Note::Dash);
        let step = call.next_piece(pass, cursor, block, left, rows)?;
        pieces.push_reserved(Piece {
            point: step.point,
            count: step.count,
            how,
            note: Note::Dash,
        });
        Ok(step.end)
    }

    /// Holds the leaf from which the scan goes on: by one restore of the cursor, and where that told to
    /// search by one way down with the cursor's key. No guess is made, and nothing is learnt.
    fn find_again(&self, pass: &mut ForestPass, cursor: &Cursor) -> (u32, How)
        requires own { IsPassOf self.now.space.now pass.old }
        requires nothing { HoldsLeavesAlone pass.old [] }
        requires from { GoesFrom (view pass.old) self.now.index cursor.now }
        ensures own { IsSamePass pass.old pass.new × IsPassOf self.now.space.now pass.new }
        ensures finds { FindsAgain pass.old self.now.index cursor.now result.0 result.1 pass.new }
        ensures stand { HoldsStand (view pass.new) result.0 self.now.index cursor.now
            (place_of cursor.now) }
        ensures only { HoldsLeavesAlone pass.new (result.0 ∷ []) }
    {
        match restore(self.space, pass, cursor) {
            Restored::ByClock { block } => (block, How::ByClock),
            Restored::BySearch { cause } => {
                let leaf = descend(
                    self.space,
                    pass,
                    self.index,
                    &cursor.key,
                    Mode::Ge,
                    self.wait,
                );
                (leaf.block, how_of_stale(&cause))
            }
        }
    }
}

/// The word for why the leaf was searched.
fn how_of_stale(cause: &Stale) -> How
    ensures { result ≡ how_of_stale cause.now }
{
    match cause {
        Stale::Busy { .. } => How::ByBusy,
        Stale::Moved { .. } => How::ByMoved,
        Stale::Last => How::ByLast,
    }
}

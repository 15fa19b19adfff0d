//! The first piece of a scan.
ghost use Rattle.std.specs.Prelude.{◌≡◌, ◌<◌, true, [], ◌∷◌, IfOk, OnErr, IsSome, vec_len, vec_capacity};
ghost use Rattle.key_tuple.specs.KeyPlace.{At};
ghost use Rattle.latch_space.specs.Has.{IsKnown};
ghost use Rattle.latch_space.specs.Passes.{view, IsSamePass};
ghost use Rattle.latch_space.specs.Spaces.{IsPassOf};
ghost use Rattle.tree_descent.specs.Ways.{HoldsPage};
ghost use Rattle.tree_neighbours.specs.LeafHands.{HoldsLeavesAlone};
ghost use Rattle.tree_cursor.specs.EmptyPieces.{HoldsEnd};
ghost use Rattle.tree_cursor.specs.Pieces.{fields_lent, HoldsStand, GivesUp};
ghost use Rattle.index_scans.specs.FirstLeaves.{HoldsFirst};
ghost use Rattle.index_scans.specs.ScanSteps.{TakesFirst, TellsFirst, TellsNone};

use crate::scan_call::{FirstLeaf, ScanCall};
use buffer_pool::{frame, give_back};
use forest_world::{ForestPass, fits};
use key_tuple::NoMemory;
use map_history::{Piece, Rows};
use std::alloc::Global;
use std::sync::Wait;
use tree_cursor::{Cursor, store};

impl<R: Wait> ScanCall<'_, R> {
    /// Reads the first piece of the leaf in hand, puts it and its rows in the lists, and answers a
    /// cursor where the scan goes on from. The leaf is given back. After `NoMemory` nothing is said,
    /// and the lists are as before.
    pub(crate) fn take_first(
        &self,
        alloc: Global,
        pass: &mut ForestPass,
        first: &FirstLeaf,
        pieces: &mut Vec<Piece>,
        rows: &mut Rows,
    ) -> Result<Option<Cursor>, NoMemory>
        requires own { IsPassOf self.now.space.now pass.old }
        requires holds { HoldsFirst (view pass.old) first.now.block self.now.index
            (At self.now.from.now.fields) first.now.place }
        requires only { HoldsLeavesAlone pass.old (first.now.block ∷ []) }
        requires limit { 0 < self.now.limit }
        requires room { vec_len pieces.old < vec_capacity pieces.old }
        requires empty { (pieces.old.items ≡ []) × (rows.old ≡ []) }
        ensures own { IsSamePass pass.old pass.new × IsPassOf self.now.space.now pass.new }
        ensures ok { IfOk result (λ cursor. TakesFirst pass.old self.now.index
            self.now.from.now.fields (fields_lent self.now.to) self.now.limit first.now cursor
            pieces.new.items rows.new pass.new) }
        ensures err { OnErr result (GivesUp pass.old first.now.block self.now.index pass.new) }
        ensures lists { OnErr result ((pieces.new.items ≡ []) × (rows.new ≡ [])) }
        ensures nothing { HoldsLeavesAlone pass.new [] }
    {
        fits(pass);
        if first.place.is_none() && !self.has_high(pass, first.block) {
            self.take_none(pass, first, pieces, rows);
            return Ok(None);
        }
        let Ok(mut cursor) = store(alloc, self.space, pass, first.block, first.place) else {
            give_back(self.space, pass, first.block);
            return Err(NoMemory);
        };
        if self.take_rows_of(pass, first, &mut cursor, pieces, rows)? {
            return Ok(None);
        }
        Ok(Some(cursor))
    }

    /// Whether the leaf in hand has a high key.
    fn has_high(&self, pass: &ForestPass, block: u32) -> bool
        requires own { IsPassOf self.now.space.now pass.now }
        requires known { IsKnown pass.now }
        requires holds { HoldsPage (view pass.now) block self.now.index 0 }
        ensures { (h : HoldsPage (view pass.now) block self.now.index 0)
            → (result ≡ true → IsSome h.frame.high) × (IsSome h.frame.high → result ≡ true) }
    {
        frame(self.space, pass, block).high.is_some()
    }

    /// Reads the piece without rows of the last leaf.
    fn take_none(
        &self,
        pass: &mut ForestPass,
        first: &FirstLeaf,
        pieces: &mut Vec<Piece>,
        rows: &Rows,
    )
        requires own { IsPassOf self.now.space.now pass.old }
        requires only { HoldsLeavesAlone pass.old (first.now.block ∷ []) }
        requires last { HoldsEnd (view pass.old) first.now.block self.now.index
            (At self.now.from.now.fields) }
        requires room { vec_len pieces.old < vec_capacity pieces.old }
        requires empty { pieces.old.items ≡ [] }
        ensures own { IsSamePass pass.old pass.new × IsPassOf self.now.space.now pass.new }
        ensures tells { TellsNone pass.old self.now.index self.now.from.now.fields
            (fields_lent self.now.to) self.now.limit first.now pieces.new.items pass.new }
        ensures nothing { HoldsLeavesAlone pass.new [] }
    {
        let call = self.piece_call(first.how, first.note);
        let point = call.empty_piece(pass, first.block, rows);
        pieces.push_reserved(Piece {
            point,
            count: 0,
            how: first.how,
            note: first.note,
        });
    }

    /// Reads the first piece from the cursor on, and tells whether the scan is at its end.
    fn take_rows_of(
        &self,
        pass: &mut ForestPass,
        first: &FirstLeaf,
        cursor: &mut Cursor,
        pieces: &mut Vec<Piece>,
        rows: &mut Rows,
    ) -> Result<bool, NoMemory>
        requires own { IsPassOf self.now.space.now pass.old }
        requires only { HoldsLeavesAlone pass.old (first.now.block ∷ []) }
        requires stand { HoldsStand (view pass.old) first.now.block self.now.index cursor.old
            (At self.now.from.now.fields) }
        requires limit { 0 < self.now.limit }
        requires room { vec_len pieces.old < vec_capacity pieces.old }
        requires empty { (pieces.old.items ≡ []) × (rows.old ≡ []) }
        ensures own { IsSamePass pass.old pass.new × IsPassOf self.now.space.now pass.new }
        ensures ok { IfOk result (λ end. TellsFirst pass.old self.now.index self.now.from.now.fields
            (fields_lent self.now.to) self.now.limit first.now cursor.old end pieces.new.items
            rows.new cursor.new pass.new) }
        ensures err { OnErr result (GivesUp pass.old first.now.block self.now.index pass.new) }
        ensures lists { OnErr result ((pieces.new.items ≡ []) × (rows.new ≡ [])) }
        ensures nothing { HoldsLeavesAlone pass.new [] }
    {
        let call = self.piece_call(first.how, first.note);
        let step = call.next_piece(pass, cursor, first.block, self.limit, rows)?;
        pieces.push_reserved(Piece {
            point: step.point,
            count: step.count,
            how: first.how,
            note: first.note,
        });
        Ok(step.end)
    }
}

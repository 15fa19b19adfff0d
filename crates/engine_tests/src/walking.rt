//! Callers with cursors on the first index, which they move on piece by piece.
ghost use Rattle.std.specs.Prelude.{◌≡◌, ◌≤◌, ◌<◌, false, [], ◌∷◌, length, IfSome};
ghost use Rattle.std.specs.Option.{ForSome};
ghost use Rattle.latch_space.specs.Passes.{view, count};
ghost use Rattle.latch_space.specs.Spaces.{IsPassOf};
ghost use Rattle.tree_neighbours.specs.LeafHands.{HoldsLeavesAlone};
ghost use Rattle.tree_cursor.specs.Pieces.{count_lent, HoldsStand};
ghost use Rattle.tree_cursor.specs.Starts.{place_of};
ghost use Rattle.engine_tests.specs.Marks.{IsMarked};

use crate::claims::ensure;
use crate::errands::key_of_row;
use crate::restored::{find_leaf, store_end, store_from, told_alone};
use crate::site::{Caller, Site};
use forest_world::ForestPass;
use key_tuple::{Key, Tuple};
use map_history::{How, Note, Rows};
use std::process::Abort;
use std::sync::Wait;
use tree_cursor::{Cursor, PieceCall, Restored, Stale, Step};

/// What a scan of the first index asks for.
#[derive(Drop)]
pub(crate) struct Scan {
    from: Key,
    to: Option<Key>,
    limit: u32,
    ghost one: { ForSome to (λ key. length key.tuple ≡ 1) },
}

impl Scan {
    /// So many rows from this one on, below the other, if there is one.
    pub(crate) fn new<R: AllocGlobal + Abort>(
        rt: &R,
        from: u32,
        to: Option<u32>,
        limit: u32,
    ) -> Scan {
        let to = match to {
            Some(row) => Some(key_of_row(rt, row)),
            None => None,
        };
        let from = key_of_row(rt, from);
        Scan { from, to, limit }
    }

    /// TO, if there is one.
    fn bound(&self) -> Option<&Tuple>
        ensures { count_lent result ≤ 1 }
    {
        match &self.to {
            Some(key) => Some(key.tuple()),
            None => None,
        }
    }
}

/// How a leaf was found that a cursor was told this of.
fn how_of(told: Restored) -> How {
    match told {
        Restored::ByClock { .. } => How::ByClock,
        Restored::BySearch { cause } => match cause {
            Stale::Busy { .. } => How::ByBusy,
            Stale::Moved { .. } => How::ByMoved,
            Stale::Last => How::ByLast,
        },
    }
}

/// Tells the next piece from a cursor on a leaf in hand, and puts its rows behind the others.
fn tell_piece<R: Abort + Wait>(
    rt: &R,
    site: &Site,
    pass: &mut ForestPass,
    cursor: &mut Cursor,
    block: u32,
    how: How,
    scan: &Scan,
    left: u32,
    rows: &mut Rows,
) -> Step
    requires own { IsPassOf site.now.space pass.old }
    requires only { HoldsLeavesAlone pass.old (block ∷ []) }
    requires stand { HoldsStand (view pass.old) block 0 cursor.old (place_of cursor.old) }
    requires left { 0 < left }
    ensures own { IsPassOf site.now.space pass.new }
    ensures nothing { count pass.new ≡ 0 }
    ensures on { result.end ≡ false → IsMarked (view pass.new) cursor.new }
{
    let call = PieceCall {
        space: &site.space,
        index: 0,
        from: scan.from.tuple(),
        to: scan.bound(),
        limit: scan.limit,
        how,
        note: Note::No,
        wait: rt,
    };
    let told = call.next_piece(pass, cursor, block, left, rows);
    told.expect(rt, "memory for rows")
}

impl Caller<'_> {
    /// A cursor before the first row from this one on of the row's leaf or, where there is none, before
    /// the leaf's high key; no cursor where there is none either.
    pub(crate) fn stand<R: AllocGlobal + Abort + Wait>(
        &mut self,
        rt: &R,
        row: u32,
    ) -> Option<Cursor>
        ensures { IfSome result (λ c. IsMarked (view self.new.pass) c) }
    {
        let key = key_of_row(rt, row);
        store_from(rt, self.site, &mut self.pass, &key)
    }

    /// A cursor before the high key of the row's leaf.
    pub(crate) fn stand_at_end<R: AllocGlobal + Abort + Wait>(&mut self, rt: &R, row: u32) -> Cursor
        ensures { IsMarked (view self.new.pass) result }
    {
        let key = key_of_row(rt, row);
        store_end(rt, self.site, &mut self.pass, &key)
    }

    /// What the cursor is told when it is restored. The leaf is given back.
    pub(crate) fn told(&mut self, cursor: &Cursor) -> Restored
        requires { IsMarked (view self.old.pass) cursor.now }
        ensures { IsMarked (view self.new.pass) cursor.now }
    {
        told_alone(self.site, &mut self.pass, cursor)
    }

    /// The next piece from the cursor on, whose rows are put behind the others: what the cursor was
    /// told when it was restored, what the piece tells, and the cursor, if the scan goes on.
    pub(crate) fn next<R: Abort + Wait>(
        &mut self,
        rt: &R,
        mut cursor: Cursor,
        scan: &Scan,
        left: u32,
        rows: &mut Rows,
    ) -> (Restored, Step, Option<Cursor>)
        requires { IsMarked (view self.old.pass) cursor }
        ensures { IfSome result.2 (λ c. IsMarked (view self.new.pass) c) }
    {
        ensure(rt, left > 0, "rows that are left to tell");
        let (told, block) = find_leaf(rt, self.site, &mut self.pass, &mut cursor);
        let how = how_of(told);
        let step = tell_piece(
            rt,
            self.site,
            &mut self.pass,
            &mut cursor,
            block,
            how,
            scan,
            left,
            rows,
        );
        let then = if step.end { None } else { Some(cursor) };
        (told, step, then)
    }
}

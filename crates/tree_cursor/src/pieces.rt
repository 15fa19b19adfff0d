//! A piece of a scan: rows of one leaf, told at one point.
ghost use Rattle.std.specs.Prelude.{◌≡◌, ◌<◌, ◌≤◌, true, [], ◌∷◌, drop, Some, None, IfOk, OnErr};
ghost use Rattle.key_tuple.specs.KeyPlace.{KeyPlace};
ghost use Rattle.latch_law.specs.Fitting.{DidRead};
ghost use Rattle.latch_space.specs.Has.{IsKnown, SameHands};
ghost use Rattle.latch_space.specs.Passes.{view, IsSamePass};
ghost use Rattle.latch_space.specs.Spaces.{IsPassOf};
ghost use Rattle.index_page.specs.Page.{PageRows};
ghost use Rattle.index_page.specs.Rows.{first_of_rows, IsAt};
ghost use Rattle.index_law.specs.Answers.{Piece};
ghost use Rattle.index_law.specs.Rightness.{IsRight};
ghost use Rattle.clock_law.specs.ModifyClock.{last_clock};
ghost use Rattle.forest_law.specs.Law.{IsLawful};
ghost use Rattle.forest_law.specs.References.{IsReference};
ghost use Rattle.forest_law.specs.State.{fields_for};
ghost use Rattle.buffer_pool.specs.Forests.{IsForest};
ghost use Rattle.buffer_pool.specs.Frames.{GivesFrame};
ghost use Rattle.tree_descent.specs.Ways.{HoldsPage};
ghost use Rattle.tree_neighbours.specs.LeafHands.{HoldsLeavesAlone};
ghost use Rattle.tree_cursor.specs.Starts.{place_of, BeginsAt};
ghost use Rattle.tree_cursor.specs.MapRows.{AreMapRows};
ghost use Rattle.tree_cursor.specs.Pieces.{fields_lent, count_lent, scan_lent, HoldsStand, TellsPiece, GivesUp};
ghost use Rattle.tree_cursor.specs.Telling.{MayTell, MayTellNext, TellsLeaf, TellsAndGives};
ghost use Rattle.tree_cursor.specs.Telling.{GivesBoth, TellsAndGivesBoth};

use crate::cursor::Cursor;
use crate::filling::{Ending, fill};
use crate::saying::say_piece;
use crate::starting::start_on;
use buffer_pool::{frame, give_back};
use forest_world::{ForestPass, ForestSpace, Frame, fits};
use index_page::Place;
use key_tuple::{NoMemory, Tuple};
use map_history::{How, Note, OpRef, Rows};
use std::sync::Wait;
use tree_neighbours::{Beside, Side, take_beside};

/// What a piece tells beside its rows.
#[derive(Clone, Copy)]
pub struct Step {
    /// The number of changes that the index's list had.
    pub point: u64,
    /// How many rows the piece has.
    pub count: u32,
    /// Whether the scan is at its end.
    pub end: bool,
}

/// A scan of an index, and the two columns of its next piece.
#[derive(Drop)]
pub struct PieceCall<'a, R> {
    /// The space.
    pub space: &'a ForestSpace,
    /// The index.
    pub index: u32,
    /// FROM.
    pub from: &'a Tuple,
    /// TO, if there is one.
    pub to: Option<&'a Tuple>,
    /// How many rows the scan asks for.
    pub limit: u32,
    /// How the leaf of the piece was found.
    pub how: How,
    /// What was learnt from that.
    pub note: Note,
    /// By which it waits for a leaf.
    pub wait: &'a R,
    ghost forest: { IsForest space.now },
    ghost there: { index < space.now.terms.shape.indexes },
    ghost fits: { count_lent to ≤ fields_for space.now.terms.shape index },
}

impl<R: Wait> PieceCall<'_, R> {
    /// Reads the next piece from the cursor on: the rows of the leaf in hand that the cursor has before
    /// it and that are below TO, as many as are left, put behind the others. Where that leaf has none
    /// at all, they are those of the leaf behind it, if there is one, and both are held while they are
    /// told. The piece is said of the range that begins at the place that the proof picks, and all
    /// leaves are given back. After `NoMemory` nothing is said, and rows and cursor are as before.
    pub fn next_piece(
        &self,
        pass: &mut ForestPass,
        cursor: &mut Cursor,
        block: u32,
        left: u32,
        rows: &mut Rows,
    ) -> Result<Step, NoMemory>
        ghost low: { KeyPlace }
        requires own { IsPassOf self.now.space.now pass.old }
        requires only { HoldsLeavesAlone pass.old (block ∷ []) }
        requires stand { HoldsStand (view pass.old) block self.now.index cursor.old low }
        requires left { 0 < left }
        ensures own { IsSamePass pass.old pass.new × IsPassOf self.now.space.now pass.new }
        ensures ok { IfOk result (λ step. TellsPiece pass.old block self.now.index
            (scan_lent self.now.from self.now.to self.now.limit) (fields_lent self.now.to) cursor.old
            low left (record { how = self.now.how; note = self.now.note }) rows.old rows.new step
            cursor.new pass.new) }
        ensures err { OnErr result (GivesUp pass.old block self.now.index pass.new) }
        ensures rows { OnErr result (rows.new ≡ rows.old) }
        ensures cursor { OnErr result (cursor.new ≡ cursor.old) }
        ensures nothing { HoldsLeavesAlone pass.new [] }
    {
        fits(pass);
        let start = self.start(pass, cursor, block);
        if start.is_some() {
            self.piece_of(pass, cursor, block, start, left, rows)
        } else {
            self.piece_behind(pass, cursor, block, left, rows)
        }
    }

    /// The same where the leaf in hand has no row that the cursor has before it.
    fn piece_behind(
        &self,
        pass: &mut ForestPass,
        cursor: &mut Cursor,
        block: u32,
        left: u32,
        rows: &mut Rows,
    ) -> Result<Step, NoMemory>
        ghost low: { KeyPlace }
        requires own { IsPassOf self.now.space.now pass.old }
        requires only { HoldsLeavesAlone pass.old (block ∷ []) }
        requires stand { HoldsStand (view pass.old) block self.now.index cursor.old low }
        requires none { (h : HoldsPage (view pass.old) block self.now.index 0)
            → BeginsAt h.is.page.rows (place_of cursor.old) None }
        requires left { 0 < left }
        ensures own { IsSamePass pass.old pass.new × IsPassOf self.now.space.now pass.new }
        ensures ok { IfOk result (λ step. TellsPiece pass.old block self.now.index
            (scan_lent self.now.from self.now.to self.now.limit) (fields_lent self.now.to) cursor.old
            low left (record { how = self.now.how; note = self.now.note }) rows.old rows.new step
            cursor.new pass.new) }
        ensures err { OnErr result (GivesUp pass.old block self.now.index pass.new) }
        ensures rows { OnErr result (rows.new ≡ rows.old) }
        ensures cursor { OnErr result (cursor.new ≡ cursor.old) }
        ensures nothing { HoldsLeavesAlone pass.new [] }
    {
        fits(pass);
        match take_beside(self.space, pass, block, self.index, Side::Right, self.wait) {
            Beside::Held(next) => self.piece_of_next(pass, cursor, block, next, left, rows),
            Beside::AtEnd => self.piece_of(pass, cursor, block, None, left, rows),
            Beside::Busy => unreachable!(),
        }
    }

    /// The place of the first row of the leaf in hand that the cursor has before it.
    fn start(&self, pass: &ForestPass, cursor: &Cursor, block: u32) -> Option<Place>
        requires own { IsPassOf self.now.space.now pass.now }
        requires known { IsKnown pass.now }
        requires stand { (low : KeyPlace) × HoldsStand (view pass.now) block self.now.index cursor.now
            low }
        ensures { (h : HoldsPage (view pass.now) block self.now.index 0)
            → BeginsAt h.is.page.rows (place_of cursor.now) result }
    {
        let found = frame(self.space, pass, block);
        let Some(page) = &found.page else {
            unreachable!()
        };
        start_on(page, is_as_kept(found, block, cursor), cursor)
    }

    /// Tells a piece of the leaf in hand, from the row at a place on, and gives the leaf back.
    fn piece_of(
        &self,
        pass: &mut ForestPass,
        cursor: &mut Cursor,
        block: u32,
        start: Option<Place>,
        left: u32,
        rows: &mut Rows,
    ) -> Result<Step, NoMemory>
        ghost low: { KeyPlace }
        requires own { IsPassOf self.now.space.now pass.old }
        requires only { HoldsLeavesAlone pass.old (block ∷ []) }
        requires may { MayTell (view pass.old) block self.now.index start low cursor.old }
        requires left { 0 < left }
        ensures own { IsSamePass pass.old pass.new × IsPassOf self.now.space.now pass.new }
        ensures ok { IfOk result (λ step. TellsAndGives pass.old block self.now.index start low
            (scan_lent self.now.from self.now.to self.now.limit) (fields_lent self.now.to) left
            (record { how = self.now.how; note = self.now.note }) rows.old rows.new step cursor.old
            cursor.new pass.new) }
        ensures err { OnErr result (GivesFrame pass.old block pass.new) }
        ensures rows { OnErr result (rows.new ≡ rows.old) }
        ensures cursor { OnErr result (cursor.new ≡ cursor.old) }
        ensures nothing { HoldsLeavesAlone pass.new [] }
    {
        let told = self.tell(pass, cursor, block, start, left, rows);
        give_back(self.space, pass, block);
        told
    }

    /// Tells a piece of the leaf behind the one in hand, which is held too, from its first row on, and
    /// gives both back.
    fn piece_of_next(
        &self,
        pass: &mut ForestPass,
        cursor: &mut Cursor,
        block: u32,
        next: u32,
        left: u32,
        rows: &mut Rows,
    ) -> Result<Step, NoMemory>
        ghost low: { KeyPlace }
        requires own { IsPassOf self.now.space.now pass.old }
        requires only { HoldsLeavesAlone pass.old (block ∷ next ∷ []) }
        requires may { MayTellNext (view pass.old) block next self.now.index low cursor.old }
        requires left { 0 < left }
        ensures own { IsSamePass pass.old pass.new × IsPassOf self.now.space.now pass.new }
        ensures ok { IfOk result (λ step. TellsAndGivesBoth pass.old block next self.now.index low
            (scan_lent self.now.from self.now.to self.now.limit) (fields_lent self.now.to) left
            (record { how = self.now.how; note = self.now.note }) rows.old rows.new step cursor.old
            cursor.new pass.new) }
        ensures err { OnErr result (GivesBoth pass.old block next pass.new) }
        ensures rows { OnErr result (rows.new ≡ rows.old) }
        ensures cursor { OnErr result (cursor.new ≡ cursor.old) }
        ensures nothing { HoldsLeavesAlone pass.new [] }
    {
        let start = first_on(frame(self.space, pass, next));
        let told = self.tell(pass, cursor, next, start, left, rows);
        give_back(self.space, pass, block);
        give_back(self.space, pass, next);
        told
    }

    /// Tells a piece of the leaf in hand, from the row at a place on.
    fn tell(
        &self,
        pass: &mut ForestPass,
        cursor: &mut Cursor,
        block: u32,
        start: Option<Place>,
        left: u32,
        rows: &mut Rows,
    ) -> Result<Step, NoMemory>
        ghost low: { KeyPlace }
        requires own { IsPassOf self.now.space.now pass.old }
        requires known { IsKnown pass.old }
        requires may { MayTell (view pass.old) block self.now.index start low cursor.old }
        requires left { 0 < left }
        ensures own { IsSamePass pass.old pass.new × IsPassOf self.now.space.now pass.new }
        ensures ok { IfOk result (λ step. (h : HoldsPage (view pass.old) block self.now.index 0)
            → TellsLeaf pass.old block self.now.index h start low
            (scan_lent self.now.from self.now.to self.now.limit) (fields_lent self.now.to) left
            (record { how = self.now.how; note = self.now.note }) rows.old rows.new step cursor.old
            cursor.new pass.new) }
        ensures err { OnErr result (pass.new ≡ pass.old) }
        ensures rows { OnErr result (rows.new ≡ rows.old) }
        ensures cursor { OnErr result (cursor.new ≡ cursor.old) }
        ensures kept { SameHands pass.old pass.new }
        ensures terms { (view pass.new).terms ≡ (view pass.old).terms }
    {
        let first = rows.count();
        let found = frame(self.space, pass, block);
        let ending = fill(found, block, start, self.to, left, cursor, rows)?;
        let count = (rows.count() - first) as u32;
        let point = self.say(pass, rows, first, cursor, ending);
        Ok(Step {
            point,
            count,
            end: !matches!(ending, Ending::Onward),
        })
    }

    /// Says the rows from a number on, as those of the range that the proof picks: the cursor and the
    /// ending tell it where that ends.
    fn say(
        &self,
        pass: &mut ForestPass,
        rows: &Rows,
        first: usize,
        cursor: &Cursor,
        ending: Ending,
    ) -> u64
        ghost range: { KeyPlace × KeyPlace }
        requires own { IsPassOf self.now.space.now pass.old }
        requires rows { AreMapRows (view pass.old) self.now.index range.0 range.1
            (drop first rows.now) }
        ensures own { IsSamePass pass.old pass.new × IsPassOf self.now.space.now pass.new }
        ensures told { DidRead IsLawful IsRight IsReference (view pass.old) self.now.index
            (Piece (scan_lent self.now.from self.now.to self.now.limit) range.0 range.1
            (drop first rows.now) None (record { how = self.now.how; note = self.now.note })) result
            (view pass.new) }
        ensures kept { SameHands pass.old pass.new }
    {
        let _ = cursor;
        let _ = ending;
        let op = OpRef::Scan {
            index: self.index,
            from: self.from,
            to: self.to,
            limit: self.limit,
        };
        say_piece(
            self.space, pass, self.index, op, rows, first, self.how, self.note,
        )
    }
}

/// Whether the frame is the one on which the cursor was made, with no row gone from it since.
fn is_as_kept(found: &Frame, block: u32, cursor: &Cursor) -> bool
    ensures { result ≡ true → (block ≡ cursor.now.block) × (found.now.clock ≡ cursor.now.clock)
        × (cursor.now.clock < last_clock) }
{
    block == cursor.block && found.clock == cursor.clock && cursor.clock < u64::MAX
}

/// The place of the first row of a frame's page.
fn first_on(found: &Frame) -> Option<Place>
    requires { (page : PageRows) × (found.now.page ≡ Some page) }
    ensures { (page : PageRows) → found.now.page ≡ Some page
        → IsAt page.rows result (first_of_rows page.rows) }
{
    match &found.page {
        Some(page) => page.first(),
        None => unreachable!(),
    }
}

//! What a seek reads of a leaf in hand, and what it says of it.
ghost use Rattle.std.specs.Prelude.{◌≡◌, false, None, Some, IsSome, IfSome, if◌then◌else◌};
ghost use Rattle.key_tuple.specs.KeyPlace.{KeyPlace};
ghost use Rattle.latch_space.specs.Has.{IsKnown, SameHands};
ghost use Rattle.latch_space.specs.Passes.{view, IsSamePass};
ghost use Rattle.latch_space.specs.Spaces.{IsPassOf};
ghost use Rattle.map_history.specs.Operation.{Seek};
ghost use Rattle.map_history.specs.Told.{columns_told};
ghost use Rattle.index_page.specs.Page.{PageRows};
ghost use Rattle.index_page.specs.Search.{Finds};
ghost use Rattle.index_law.specs.Answers as answers;
ghost use Rattle.buffer_pool.specs.Hands.{MayGiveBack};
ghost use Rattle.buffer_pool.specs.Frames.{GivesFrame};
ghost use Rattle.tree_descent.specs.Ways.{HoldsPage};
ghost use Rattle.tree_neighbours.specs.Sides.{side_of, row_on};
ghost use Rattle.engine_law.specs.Says.{columns_by, OnlyLooks};
ghost use Rattle.index_seeks.specs.Seeks.{TellsRow, CanTell};
ghost use Rattle.index_seeks.specs.SeekHands.{StandsOn};
ghost use Rattle.index_seeks.specs.SeekSteps.{SaysIf, CountsPast, StandsThen, TellsColumns};

use crate::seek_call::{SeekCall, Stand, Walk};
use buffer_pool::{frame, give_back};
use forest_world::{ForestPass, Frame};
use index_law::Say;
use index_page::{Page, Place, Spot};
use key_tuple::{Mode, Tuple};
use map_history::{OpRef, Reply, RowBuf, Told};
use tree_neighbours::{Side, side_of};

impl<R> SeekCall<'_, R> {
    /// Looks for the row on the leaf in hand. It is answered where it is there, and the list is
    /// looked at where it isn't, unless that has another number of changes than the bound.
    pub(crate) fn stand_on(
        &self,
        pass: &mut ForestPass,
        block: u32,
        out: &mut RowBuf,
        bound: Option<u64>,
    ) -> Stand
        requires own { IsPassOf self.now.space.now pass.old }
        requires stands { StandsOn pass.old block self.now.index self.now.mode self.now.tuple.now.fields
            bound }
        ensures own { IsSamePass pass.old pass.new × IsPassOf self.now.space.now pass.new }
        ensures kept { SameHands pass.old pass.new }
        ensures then { StandsThen pass.old pass.new block self.now.index self.now.mode
            self.now.tuple.now.fields result out.new }
        ensures columns { TellsColumns (columns_by self.now.found) result }
    {
        if self.take_row_of(pass, block, out) {
            return Stand::Ends(self.tell(pass, Reply::Found, out, bound));
        }
        match self.count_changes(pass, bound) {
            Some(point) => Stand::On(Walk { block, point }),
            None => Stand::Ends(None),
        }
    }

    /// Whether the leaf in hand has a row for the mode, which is put in `out` then.
    fn take_row_of(&self, pass: &ForestPass, block: u32, out: &mut RowBuf) -> bool
        requires own { IsPassOf self.now.space.now pass.now }
        requires held { HoldsPage (view pass.now) block self.now.index 0 }
        requires known { IsKnown pass.now }
        ensures { (h : HoldsPage (view pass.now) block self.now.index 0) → TellsRow self.now.mode
            self.now.tuple.now.fields h.is.page.rows result out.new }
    {
        let page = page_of(frame(self.space, pass, block));
        take_row(
            page,
            &page.search(self.tuple, self.mode),
            self.mode,
            self.tuple,
            out,
        )
    }

    /// Answers at the end of the list without a change, if that has as many changes as the bound.
    pub(crate) fn tell(
        &self,
        pass: &mut ForestPass,
        reply: Reply,
        row: &RowBuf,
        bound: Option<u64>,
    ) -> Option<Told>
        requires own { IsPassOf self.now.space.now pass.old }
        requires can { CanTell (view pass.old) self.now.index self.now.mode self.now.tuple.now.fields bound
            reply row.now }
        ensures own { IsSamePass pass.old pass.new × IsPassOf self.now.space.now pass.new }
        ensures kept { SameHands pass.old pass.new }
        ensures did { SaysIf (view pass.old) (view pass.new) self.now.index
            (Seek self.now.mode self.now.tuple.now.fields) result row.now }
        ensures speaks { bound ≡ None → IsSome result }
        ensures columns { IfSome result (λ told. columns_told told
            ≡ columns_by self.now.found) }
    {
        let how = self.found.how;
        let note = self.found.note;
        let op = OpRef::Seek {
            index: self.index,
            mode: self.mode,
            tuple: self.tuple,
        };
        let row = Some(row);
        let said = Say::Reply {
            op,
            reply,
            row,
            bound,
            how,
            note,
        };
        let point = self.space.read_point(pass, self.index, &said);
        if speaks_at(bound, point) {
            let point = Some(point);
            Some(Told {
                reply,
                point,
                how,
                note,
            })
        } else {
            None
        }
    }

    /// How many changes the list has, if those are as many as the bound.
    fn count_changes(&self, pass: &mut ForestPass, bound: Option<u64>) -> Option<u64>
        requires own { IsPassOf self.now.space.now pass.old }
        ensures own { IsSamePass pass.old pass.new × IsPassOf self.now.space.now pass.new }
        ensures kept { SameHands pass.old pass.new }
        ensures looked { OnlyLooks (view pass.old) (view pass.new) self.now.index }
        ensures past { CountsPast (view pass.old) (view pass.new) self.now.index self.now.mode
            self.now.tuple.now.fields bound result }
    {
        let point = self.space.read_point(pass, self.index, &Say::Look);
        if speaks_at(bound, point) {
            Some(point)
        } else {
            None
        }
    }

    /// Gives a leaf back, which is what it is known to be.
    pub(crate) fn leave(&self, pass: &mut ForestPass, block: u32)
        requires own { IsPassOf self.now.space.now pass.old }
        requires held { MayGiveBack pass.old block }
        ensures own { IsSamePass pass.old pass.new × IsPassOf self.now.space.now pass.new }
        ensures gave { GivesFrame pass.old block pass.new }
    {
        give_back(self.space, pass, block);
    }
}

/// The page of a frame that has one.
pub(crate) fn page_of(frame: &Frame) -> &Page
    requires { (page : PageRows) × (frame.now.page ≡ Some page) }
    ensures { frame.now.page ≡ Some result.now }
{
    match &frame.page {
        Some(page) => page,
        None => unreachable!(),
    }
}

/// Whether a leaf has a row for the mode, by the spot of its search. The row is put in `out` then.
pub(crate) fn take_row(
    page: &Page,
    spot: &Spot,
    mode: Mode,
    tuple: &Tuple,
    out: &mut RowBuf,
) -> bool
    requires leaf { page.now.head.level ≡ 0 }
    requires finds { Finds mode tuple.now.fields page.now.rows spot.now }
    ensures row { TellsRow mode tuple.now.fields page.now.rows result out.new }
    ensures none { result ≡ false → row_on (side_of mode) spot.now ≡ None }
{
    let _ = tuple;
    match place_on(spot, mode) {
        Some(place) => {
            let row = page.row(place);
            out.fill(&row, row.value());
            true
        }
        None => false,
    }
}

/// The place of the row that the mode asks for.
fn place_on(spot: &Spot, mode: Mode) -> Option<Place>
    ensures { result ≡ row_on (side_of mode) spot.now }
{
    match side_of(mode) {
        Side::Left => spot.before,
        Side::Right => spot.after,
    }
}

/// What is replied where a row was found, or none.
pub(crate) fn reply_if(found: bool) -> Reply
    ensures { result ≡ (if found then Reply.Found else Reply.Absent) }
{
    if found { Reply::Found } else { Reply::Absent }
}

/// Whether a reply with this bound speaks at the point.
fn speaks_at(bound: Option<u64>, point: u64) -> bool
    ensures { result ≡ answers.speaks_at bound point }
{
    match bound {
        Some(count) => count == point,
        None => true,
    }
}

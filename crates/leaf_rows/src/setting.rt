//! A row of a leaf gets another value.
ghost use Rattle.std.specs.Prelude.{◌≡◌, ◌≤◌, ◌⊎◌, ◌==◌, ℕ, List, length, Some, Err};
ghost use Rattle.std.specs.Prelude.{IfOk, IfErr, OnOk, OnErr, IfSome, IsSome};
ghost use Rattle.key_tuple.specs.Order.{FieldList};
ghost use Rattle.forest_law.specs.HashSteps.{KeepsHashing};
ghost use Rattle.index_page.specs.declared.error.PageError.TheVariants as error;
ghost use Rattle.index_page.specs.Changes.{Sets};
ghost use Rattle.index_page.specs.Page.{IsPageInOrder};
ghost use Rattle.index_page.specs.Refusals.{set_refusal};
ghost use Rattle.index_page.specs.Rows.{Bytes, Row, find_row};
ghost use Rattle.leaf_rows.specs.Changing.{HasSomeRow, HasRowOf};
ghost use Rattle.leaf_rows.specs.Setting.{page_with, frame_with, IsNoLonger, IsLongerValue, SetsValue};
ghost use Rattle.leaf_rows.specs.Setting.{MovesRowTo, value_refusal, frame_before};

use crate::changing::has_clock;
use forest_law::Frame;
use index_page::{Page, PageCopy, PageError, Place};
use key_tuple::Value;
use std::alloc::Global;
use std::marker::Model;

/// How long the value of the row at a place is.
pub fn value_len(frame: &Frame, place: Place) -> usize
    requires { HasSomeRow frame.now place }
    ensures { (key : FieldList) (has : HasRowOf frame.now place key) →
        result ≡ length has.has.value }
{
    match &frame.page {
        Some(page) => page.row(place).value().len(),
        None => unreachable!(),
    }
}

/// Gives the row at a place a value that is no longer than the one before. The clock stays where it
/// is as long, and goes one up where it is shorter. It takes no memory.
pub fn rewrite_row(frame: &mut Frame, place: Place, value: &Value)
    requires there { HasSomeRow frame.old place }
    requires no_longer { IsNoLonger frame.old place value.now }
    ensures { (key : FieldList) (has : HasRowOf frame.old place key) → frame.new
        ≡ frame_with place value.now (length value.now == length has.has.value) frame.old }
{
    let as_long = value.as_bytes().len() == value_len(frame, place);
    match &mut frame.page {
        Some(page) => rewrite(page, place, value),
        None => unreachable!(),
    }
    if !as_long {
        frame.raise_clock();
    }
}

/// The same of the page.
fn rewrite(page: &mut Page, place: Place, value: &Value)
    requires there { IsSome (find_row place page.old.rows) }
    requires level { page.old.head.level ≡ 0 }
    requires no_longer { (row : Row) (before : List ℕ) → find_row place page.old.rows ≡ Some row →
        row.body ≡ Bytes before → length value.now ≤ length before }
    ensures { page.new ≡ page_with place value.now page.old }
{
    page.is_in_order();
    let _ = page.set(place, value);
}

/// A leaf as it was before a value grew, with its clock.
#[derive(Drop)]
pub struct LeafBefore {
    copy: PageCopy,
    clock: u64,
}

impl Model for LeafBefore {
    ghost use Rattle.leaf_rows.specs.Setting.{PageBefore};

    ghost Value = { PageBefore };

    ghost view = { λ b. record { page = b.copy; clock = b.clock } };
}

/// A row that grew: where it stands now, and what its leaf was before.
#[derive(Drop)]
pub struct GrownRow {
    /// Where the row stands now.
    pub place: Place,
    /// The leaf before.
    pub before: LeafBefore,
}

/// Gives the row at a place another value, and the clock goes one up. No other row moves. A value
/// for which there is no room is refused. After an error the frame is as before.
pub fn grow_value(
    alloc: Global,
    frame: &mut Frame,
    place: Place,
    value: &Value,
) -> Result<GrownRow, PageError>
    requires there { HasSomeRow frame.old place }
    requires longer { IsLongerValue frame.old place value.now }
    ensures ok { IfOk result (λ _. (key : FieldList) → HasRowOf frame.old place key →
        SetsValue frame.old frame.new key value.now) }
    ensures moves { IfOk result (λ grown. MovesRowTo frame.old frame.new place grown.place) }
    ensures before { IfOk result (λ grown. frame_before grown.before frame.new ≡ frame.old) }
    ensures some { IfOk result (λ grown. IsSome grown.before.page) }
    ensures refused { IfSome (value_refusal frame.old place value.now) (λ e. result ≡ Err e) }
    ensures cause { IfErr result (λ e. (e ≡ error.NoMemory)
        ⊎ (value_refusal frame.old place value.now ≡ Some e)) }
    ensures err { OnErr result (frame.new ≡ frame.old) }
    ensures hash { KeepsHashing frame.old frame.new }
{
    let page = match &mut frame.page {
        Some(page) => page,
        None => unreachable!(),
    };
    let (other, copy) = rewrite_kept(alloc, page, place, value)?;
    has_clock(frame);
    let clock = frame.clock;
    frame.raise_clock();
    Ok(GrownRow {
        place: other,
        before: LeafBefore { copy, clock },
    })
}

/// The same of the page, which is kept as it was. The refusal comes before any memory is asked for.
fn rewrite_kept(
    alloc: Global,
    page: &mut Page,
    place: Place,
    value: &Value,
) -> Result<(Place, PageCopy), PageError>
    requires there { IsSome (find_row place page.old.rows) }
    requires level { page.old.head.level ≡ 0 }
    ensures ok { IfOk result (λ made. Sets page.old page.new place made.0 value.now) }
    ensures kept { IfOk result (λ made. made.1 ≡ Some page.old) }
    ensures old_order { IsPageInOrder page.old }
    ensures new_order { OnOk result (IsPageInOrder page.new) }
    ensures refused { IfSome (set_refusal page.old place value.now) (λ e. result ≡ Err e) }
    ensures cause { IfErr result (λ e. (e ≡ error.NoMemory)
        ⊎ (set_refusal page.old place value.now ≡ Some e)) }
    ensures err { OnErr result (page.new ≡ page.old) }
{
    page.is_in_order();
    if let Some(refusal) = page.refusal_to_set(place, value) {
        return Err(refusal);
    }
    let Ok(mut copy) = PageCopy::new(alloc) else {
        return Err(PageError::NoMemory);
    };
    let Ok(()) = page.save(&mut copy) else {
        return Err(PageError::NoMemory);
    };
    match page.set(place, value) {
        Ok(other) => {
            page.is_in_order();
            Ok((other, copy))
        }
        Err(refusal) => Err(refusal),
    }
}

/// Makes the leaf what it was before, with its clock. It takes no memory.
pub fn put_back(frame: &mut Frame, before: LeafBefore)
    requires frame { IsSome frame.old.page }
    requires before { IsSome before.page }
    ensures { frame.new ≡ frame_before before frame.old }
{
    let LeafBefore { mut copy, clock } = before;
    match &mut frame.page {
        Some(page) => page.restore(&mut copy),
        None => unreachable!(),
    }
    frame.clock = clock;
}

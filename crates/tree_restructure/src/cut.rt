//! A page that is cut in two.
ghost use Rattle.std.specs.Prelude.{◌≡◌, ◌<◌, length, IfOk, OnOk, OnErr};
ghost use Rattle.forest_law.specs.HashSteps.{KeepsHashing};
ghost use Rattle.tree_restructure.specs.Cuts.{HalvesAt, SuitsPages, CutsPage};
ghost use Rattle.tree_restructure.specs.FrameCuts.{CanBeCut, IsCutOf, SuitsFrames, CutsIn, CutsFrame};

use crate::clock::rise;
use crate::keys::own_key;
use crate::walk::half_place;
use forest_law::Frame;
use index_page::{Page, Place};
use key_tuple::{Key, NoMemory};
use std::alloc::Global;

/// Where a page is cut: the first row of its upper half.
#[derive(Drop)]
pub struct Cut {
    /// The place of the row.
    pub place: Place,
    /// Its key, from which on rows are on the right page.
    pub key: Key,
}

/// Where the page of a frame is cut: as near to half of its load as rows allow, and the first such
/// cut.
pub fn find_cut(alloc: Global, frame: &Frame) -> Result<Cut, NoMemory>
    requires { CanBeCut frame.now }
    ensures { IfOk result (λ cut. IsCutOf frame.now cut) }
{
    match &frame.page {
        Some(page) => cut_of_page(alloc, page),
        None => unreachable!(),
    }
}

/// Where a page is cut.
fn cut_of_page(alloc: Global, page: &Page) -> Result<Cut, NoMemory>
    requires { 1 < length page.now.rows }
    ensures { IfOk result (λ cut. HalvesAt page.now.rows cut.place cut.key.tuple) }
{
    page.is_in_order();
    let place = half_place(page);
    let key = own_key(alloc, &page.row(place))?;
    Ok(Cut { place, key })
}

/// Cuts the page of a frame at a cut that `find_cut` told: the rows from the cut on go to the page of
/// the right frame, which has none, and stands between the left one and the one that was next. The
/// clocks of both rise. After `NoMemory` both frames are as before.
pub fn cut_frame(left: &mut Frame, right: &mut Frame, cut: Cut) -> Result<(), NoMemory>
    requires { SuitsFrames left.old right.old cut.place cut.key.tuple }
    ensures ok { OnOk result (CutsFrame left.old left.new right.old right.new cut.key.tuple) }
    ensures hash { KeepsHashing left.old left.new × KeepsHashing right.old right.new }
    ensures err { OnErr result (left.new ≡ left.old) }
    ensures right_err { OnErr result (right.new ≡ right.old) }
{
    let high = cut.key.clone()?;
    cut_in(left, right, &cut)?;
    right.high = left.high.take();
    right.low = Some(cut.key);
    left.high = Some(high);
    rise(left);
    rise(right);
    Ok(())
}

/// The same of the pages alone.
fn cut_in(left: &mut Frame, right: &mut Frame, cut: &Cut) -> Result<(), NoMemory>
    requires { SuitsFrames left.old right.old cut.now.place cut.now.key.tuple }
    ensures ok { OnOk result (CutsIn left.old left.new right.old right.new cut.now.key.tuple) }
    ensures hash { KeepsHashing left.old left.new × KeepsHashing right.old right.new }
    ensures err { OnErr result (left.new ≡ left.old) }
    ensures right_err { OnErr result (right.new ≡ right.old) }
{
    match (&mut left.page, &mut right.page) {
        (Some(page), Some(fresh)) => cut_page(page, fresh, cut),
        _ => unreachable!(),
    }
}

/// Cuts a page, and links both halves.
fn cut_page(left: &mut Page, right: &mut Page, cut: &Cut) -> Result<(), NoMemory>
    requires { SuitsPages left.old right.old cut.now.place cut.now.key.tuple }
    ensures ok { OnOk result (CutsPage left.old left.new right.old right.new cut.now.key.tuple) }
    ensures err { OnErr result (left.new ≡ left.old) }
    ensures right_err { OnErr result (right.new ≡ right.old) }
{
    left.is_in_order();
    let (head, other) = (*left.head(), right.head().number);
    left.move_tail(cut.place, right)?;
    left.link(head.prev, Some(other));
    right.link(Some(head.number), head.next);
    left.is_in_order();
    right.is_in_order();
    Ok(())
}

//! A page that is cut while its parent gets the pointer.
ghost use Rattle.std.specs.Prelude.{◌≡◌, ◌⊎◌, ℕ, Some, Err, IfErr, OnOk, OnErr, IfSome, IsSome};
ghost use Rattle.index_page.specs.Rows.{find_row};
ghost use Rattle.index_page.specs.Page.{PageRows};
ghost use Rattle.forest_law.specs.HashSteps.{KeepsHashing};
ghost use Rattle.tree_restructure.specs.Links.{HasAPage};
ghost use Rattle.tree_restructure.specs.SplitCalls.{SuitsSplit, SplitsUnder, TakesRow, HasRowAt};
ghost use Rattle.tree_restructure.specs.SplitCalls.{split_refusal};

use crate::cut::{Cut, cut_frame};
use crate::pointer::put_pointer;
use forest_law::Frame;
use index_page::{PageError, Place};

/// Cuts the left page at a cut that `find_cut` told, and puts the pointer to the right one in. The
/// page behind is still to be linked, by `relink_next`. After a refusal all three frames are as
/// before.
pub fn split_frames(
    left: &mut Frame,
    right: &mut Frame,
    parent: &mut Frame,
    cut: Cut,
) -> Result<(), PageError>
    requires { SuitsSplit left.old right.old parent.old cut.place cut.key.tuple }
    ensures ok { OnOk result (SplitsUnder left.old left.new right.old right.new parent.old
        parent.new cut.key.tuple) }
    ensures hash { KeepsHashing left.old left.new × KeepsHashing right.old right.new }
    ensures refused { IfSome (split_refusal parent.old right.old cut.key.tuple)
        (λ e. result ≡ Err e) }
    ensures cause { IfErr result (λ e. (e ≡ PageError.NoMemory)
        ⊎ (split_refusal parent.old right.old cut.key.tuple ≡ Some e)) }
    ensures err { OnErr result ((left.new ≡ left.old) × (right.new ≡ right.old)
        × (parent.new ≡ parent.old)) }
{
    let number = number_in(right);
    let place = put_pointer(parent, &cut.key, number)?;
    match cut_frame(left, right, cut) {
        Ok(()) => Ok(()),
        Err(_) => {
            take_out(parent, place);
            Err(PageError::NoMemory)
        }
    }
}

/// The number of a frame's page.
fn number_in(frame: &Frame) -> u32
    requires { HasAPage frame.now }
    ensures { (page : PageRows) → frame.now.page ≡ Some page → result ≡ page.head.number }
{
    match &frame.page {
        Some(page) => page.head().number,
        None => unreachable!(),
    }
}

/// Takes the row at a place of a frame's page out.
fn take_out(frame: &mut Frame, place: Place)
    requires { HasRowAt frame.old place }
    ensures { TakesRow frame.old frame.new place }
{
    match &mut frame.page {
        Some(page) => page.delete(place),
        None => unreachable!(),
    }
}

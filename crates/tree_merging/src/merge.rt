//! Two pages that become one, while their parent loses a pointer.
ghost use Rattle.std.specs.Prelude.{◌≡◌, OnOk, OnErr};
ghost use Rattle.forest_law.specs.HashSteps.{KeepsHashing};
ghost use Rattle.tree_merging.specs.FrameMerges.{SuitsMerge, SuitsPairIn, MergesIn, MergesUnder};

use crate::pair::merge_pages;
use crate::pointer::take_pointer;
use forest_law::Frame;
use key_tuple::NoMemory;
use tree_restructure::rise;

/// Moves all rows of the right page behind those of the left one, and takes the parent's pointer to
/// the right page out. The page behind is still to be linked, by `relink_next` of tree_restructure.
/// The clocks of all three rise, and both pages' frames are hashed as before. After `NoMemory` all
/// three are as before.
pub fn merge_frames(left: &mut Frame, right: &mut Frame, parent: &mut Frame) -> Result<(), NoMemory>
    requires { SuitsMerge left.old right.old parent.old }
    ensures ok { OnOk result (MergesUnder left.old left.new right.old right.new parent.old
        parent.new) }
    ensures err { OnErr result ((left.new ≡ left.old) × (right.new ≡ right.old)
        × (parent.new ≡ parent.old)) }
    ensures hash { KeepsHashing left.old left.new × KeepsHashing right.old right.new }
{
    merge_in(left, right)?;
    take_pointer(parent, right);
    left.high = right.high.take();
    right.low = None;
    rise(left);
    rise(right);
    rise(parent);
    Ok(())
}

/// The same of the two pages alone.
fn merge_in(left: &mut Frame, right: &mut Frame) -> Result<(), NoMemory>
    requires { SuitsPairIn left.old right.old }
    ensures ok { OnOk result (MergesIn left.old left.new right.old right.new) }
    ensures err { OnErr result (left.new ≡ left.old) }
    ensures right_err { OnErr result (right.new ≡ right.old) }
{
    match (&mut left.page, &mut right.page) {
        (Some(page), Some(other)) => merge_pages(page, other),
        _ => unreachable!(),
    }
}

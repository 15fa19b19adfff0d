//! A root that sinks to the page under it, and takes its rows.
ghost use Rattle.std.specs.Prelude.{◌≡◌, OnOk, OnErr};
ghost use Rattle.forest_law.specs.HashSteps.{KeepsHashing};
ghost use Rattle.tree_merging.specs.Lifts.{SuitsLift, SuitsLiftFrames, LiftsPage, LiftsIn, LiftsFrame};

use forest_law::Frame;
use index_page::{Page, PageHead};
use key_tuple::NoMemory;
use std::alloc::Global;
use tree_restructure::rise;

/// Moves all rows of a root's only child to the root, in place of the pointer to it. The root gets
/// the child's level, the child has no rows and no bounds then, the clocks of both rise, and both
/// frames are hashed as before. After `NoMemory` they are as before.
pub fn lift_frames(alloc: Global, root: &mut Frame, child: &mut Frame) -> Result<(), NoMemory>
    requires { SuitsLiftFrames root.old child.old }
    ensures ok { OnOk result (LiftsFrame root.old root.new child.old child.new) }
    ensures err { OnErr result (root.new ≡ root.old) }
    ensures child_err { OnErr result (child.new ≡ child.old) }
    ensures hash { KeepsHashing root.old root.new × KeepsHashing child.old child.new }
{
    lift_in(alloc, root, child)?;
    child.low = None;
    child.high = None;
    rise(root);
    rise(child);
    Ok(())
}

/// The same of the pages alone.
fn lift_in(alloc: Global, root: &mut Frame, child: &mut Frame) -> Result<(), NoMemory>
    requires { SuitsLiftFrames root.old child.old }
    ensures ok { OnOk result (LiftsIn root.old root.new child.old child.new) }
    ensures err { OnErr result (root.new ≡ root.old) }
    ensures child_err { OnErr result (child.new ≡ child.old) }
{
    match (&mut root.page, &mut child.page) {
        (Some(page), Some(under)) => lift_page(alloc, page, under),
        _ => unreachable!(),
    }
}

/// Gives a page the rows and the level of another. Its new form is made first, so that it stays
/// whole without memory.
fn lift_page(alloc: Global, root: &mut Page, child: &mut Page) -> Result<(), NoMemory>
    requires { SuitsLift root.old child.old }
    ensures ok { OnOk result (LiftsPage root.old root.new child.old child.new) }
    ensures err { OnErr result (root.new ≡ root.old) }
    ensures child_err { OnErr result (child.new ≡ child.old) }
{
    root.is_in_order();
    child.is_in_order();
    let PageHead { number, level, .. } = *child.head();
    let mut whole = Page::empty(
        alloc,
        PageHead {
            level,
            ..*root.head()
        },
    )?;
    child.move_all(&mut whole)?;
    child.link(Some(number), None);
    *root = whole;
    root.is_in_order();
    Ok(())
}

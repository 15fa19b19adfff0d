//! A root that rises over a page that gets its rows.
ghost use Rattle.std.specs.Prelude.{◌≡◌, ◌≢◌, ◌<◌, ◌≤◌, ◌^◌, suc, [], None, IfOk, OnOk, OnErr};
ghost use Rattle.key_tuple.specs.declared.TheConstants.{MAX_FIELDS};
ghost use Rattle.index_page.specs.declared.head.PageHead.{PageHead};
ghost use Rattle.index_page.specs.Rows.{SameRows};
ghost use Rattle.index_page.specs.Page.{IsPageInOrder};
ghost use Rattle.forest_law.specs.HashSteps.{KeepsHashing};
ghost use Rattle.tree_restructure.specs.Cuts.{IsBlankBeside};
ghost use Rattle.tree_restructure.specs.Raises.{HasOnePointer, SuitsRaise, SuitsRaiseFrames};
ghost use Rattle.tree_restructure.specs.Raises.{RaisesPage, RaisesIn, RaisesFrame};

use crate::clock::rise;
use forest_law::Frame;
use index_page::{Body, Page, PageHead};
use key_tuple::{Blank, NoMemory};
use std::alloc::Global;

/// Moves all rows of a root to the page of another frame, which has none, and leaves the root one
/// pointer to that page, a level higher. The clocks of both rise. After `NoMemory` both frames are as
/// before.
pub fn raise_frames(alloc: Global, root: &mut Frame, below: &mut Frame) -> Result<(), NoMemory>
    requires { SuitsRaiseFrames root.old below.old }
    ensures ok { OnOk result (RaisesFrame root.old root.new below.old below.new) }
    ensures hash { KeepsHashing root.old root.new × KeepsHashing below.old below.new }
    ensures err { OnErr result (root.new ≡ root.old) }
    ensures below_err { OnErr result (below.new ≡ below.old) }
{
    raise_in(alloc, root, below)?;
    below.low = None;
    below.high = None;
    rise(root);
    rise(below);
    Ok(())
}

/// The same of the pages alone.
fn raise_in(alloc: Global, root: &mut Frame, below: &mut Frame) -> Result<(), NoMemory>
    requires { SuitsRaiseFrames root.old below.old }
    ensures ok { OnOk result (RaisesIn root.old root.new below.old below.new) }
    ensures hash { KeepsHashing root.old root.new × KeepsHashing below.old below.new }
    ensures err { OnErr result (root.new ≡ root.old) }
    ensures below_err { OnErr result (below.new ≡ below.old) }
{
    match (&mut root.page, &mut below.page) {
        (Some(page), Some(fresh)) => raise_page(alloc, page, fresh),
        _ => unreachable!(),
    }
}

/// Raises a page over another. Its new form is made first, so that it stays whole without memory.
fn raise_page(alloc: Global, root: &mut Page, below: &mut Page) -> Result<(), NoMemory>
    requires { SuitsRaise root.old below.old }
    ensures ok { OnOk result (RaisesPage root.old root.new below.old below.new) }
    ensures err { OnErr result (root.new ≡ root.old) }
    ensures below_err { OnErr result (below.new ≡ below.old) }
{
    root.is_in_order();
    let top = one_pointer(alloc, root.head(), below.head().number)?;
    move_rows(root, below)?;
    below.link(None, None);
    *root = top;
    root.is_in_order();
    below.is_in_order();
    Ok(())
}

/// A page a level above that of a head, with one pointer, which begins before all keys.
fn one_pointer(alloc: Global, head: &PageHead, child: u32) -> Result<Page, NoMemory>
    requires level { suc head.now.level < 2 ^ 16 }
    requires fields { head.now.fields ≤ MAX_FIELDS }
    ensures head { IfOk result (λ top. top.head
        ≡ record head.now { level = suc head.now.level; prev = None; next = None }) }
    ensures one { IfOk result (λ top. HasOnePointer top child) }
{
    let head = PageHead {
        level: head.level + 1,
        prev: None,
        next: None,
        ..*head
    };
    let mut top = Page::empty(alloc, head)?;
    let key = Blank { count: head.fields };
    match top.insert(&key, Body::Child(child)) {
        Ok(_) => Ok(top),
        Err(_) => Err(NoMemory),
    }
}

/// Moves all rows of a page to one that has none.
fn move_rows(from: &mut Page, to: &mut Page) -> Result<(), NoMemory>
    requires some { from.old.rows ≢ [] }
    requires blank { IsBlankBeside from.old to.old }
    ensures go { OnOk result (SameRows from.old.rows to.new.rows) }
    ensures head { OnOk result (to.new.head ≡ to.old.head) }
    ensures err { OnErr result (from.new ≡ from.old) }
    ensures to_err { OnErr result (to.new ≡ to.old) }
{
    from.is_in_order();
    match from.first() {
        Some(first) => from.move_tail(first, to),
        None => unreachable!(),
    }
}

//! A page is held by its number, in whatever frame it is.
ghost use Rattle.std.specs.Prelude.{◌<◌, ◌+◌, ◌≤◌, IsTrue};
ghost use Rattle.latch_space.specs.declared.TheConstants.{MAX_HELD};
ghost use Rattle.latch_space.specs.Has.{IsKnown};
ghost use Rattle.latch_space.specs.Passes.{view, count, IsSamePass};
ghost use Rattle.latch_space.specs.Spaces.{IsPassOf};
ghost use Rattle.forest_world.specs.Held.{shape_of_pass};
ghost use Rattle.call_law.specs.Hands.{HoldsNoTable};
ghost use Rattle.buffer_pool.specs.Forests.{IsForest, IsFittedTree};
ghost use Rattle.buffer_pool.specs.Pages.{IsLive, HoldsOtherPages};
ghost use Rattle.buffer_pool.specs.Pages.{PagesIn, PagesInIf, TellsPageTry, HasTreePage};
ghost use Rattle.buffer_pool.specs.Looking.{HoldsIf};

use crate::frames::give_back;
use crate::hands::frame;
use crate::looking::{Looked, look_for};
use crossbeam_utils::Backoff;
use forest_world::{ForestPass, ForestSpace, Frame, fits};
use std::sync::Wait;

/// Holds the page, and answers the block that has it in its frame. It takes no memory.
pub fn page_in<R: Wait>(space: &ForestSpace, pass: &mut ForestPass, page: u32, wait: &R) -> u32
    requires own { IsForest space.now × IsPassOf space.now pass.old }
    requires live { IsLive (view pass.old) page }
    requires known { IsKnown pass.old }
    requires others { HoldsOtherPages (view pass.old) page }
    requires tables { HoldsNoTable (view pass.old) }
    requires room { count pass.old + 3 ≤ MAX_HELD }
    ensures own { IsSamePass pass.old pass.new × IsPassOf space.now pass.new }
    ensures took { PagesIn pass.old page result pass.new }
    ensures fits { IsFittedTree (view pass.new) }
{
    fits(pass);
    let Some(block) = hold_page(space, pass, page, wait) else {
        unreachable!()
    };
    block
}

/// Holds the page where it is one of the trees, of this index and level, and answers the block that
/// has it in its frame. Where it isn't, or the number has no page by now, it answers `None` and
/// holds what it held. It takes no memory.
pub fn page_if<R: Wait>(
    space: &ForestSpace,
    pass: &mut ForestPass,
    page: u32,
    index: u32,
    level: u16,
    wait: &R,
) -> Option<u32>
    requires own { IsForest space.now × IsPassOf space.now pass.old }
    requires there { page < (shape_of_pass pass.old).pages }
    requires known { IsKnown pass.old }
    requires others { HoldsOtherPages (view pass.old) page }
    requires tables { HoldsNoTable (view pass.old) }
    requires room { count pass.old + 3 ≤ MAX_HELD }
    ensures own { IsSamePass pass.old pass.new × IsPassOf space.now pass.new }
    ensures did { PagesInIf pass.old page index level result pass.new }
    ensures fits { IsFittedTree (view pass.new) }
{
    let Some(block) = hold_page(space, pass, page, wait) else {
        return None;
    };
    if has_tree_page(frame(space, pass, block), index, level) {
        return Some(block);
    }
    give_back(space, pass, block);
    None
}

/// Holds the page unless its frame is another pass's at the one try that is made of it, and answers
/// the block that has it in its frame. For a page against the order of latches.
pub fn try_page<R: Wait>(
    space: &ForestSpace,
    pass: &mut ForestPass,
    page: u32,
    wait: &R,
) -> Option<u32>
    requires own { IsForest space.now × IsPassOf space.now pass.old }
    requires live { IsLive (view pass.old) page }
    requires known { IsKnown pass.old }
    requires others { HoldsOtherPages (view pass.old) page }
    requires tables { HoldsNoTable (view pass.old) }
    requires room { count pass.old + 3 ≤ MAX_HELD }
    ensures own { IsSamePass pass.old pass.new × IsPassOf space.now pass.new }
    ensures did { TellsPageTry pass.old page result pass.new }
    ensures fits { IsFittedTree (view pass.new) }
{
    fits(pass);
    let backoff = Backoff::new();
    for _ in wait.forever() {
        match look_for(space, pass, page, wait) {
            Looked::Held(block) => return Some(block),
            Looked::Busy => return None,
            Looked::NoRoom => backoff.snooze(),
            Looked::Free => unreachable!(),
        }
    }
    unreachable!()
}

// Looks until the page is held, or the pool has none of its number.
fn hold_page<R: Wait>(
    space: &ForestSpace,
    pass: &mut ForestPass,
    page: u32,
    wait: &R,
) -> Option<u32>
    requires own { IsForest space.now × IsPassOf space.now pass.old }
    requires there { page < (shape_of_pass pass.old).pages }
    requires known { IsKnown pass.old }
    requires others { HoldsOtherPages (view pass.old) page }
    requires tables { HoldsNoTable (view pass.old) }
    requires room { count pass.old + 3 ≤ MAX_HELD }
    ensures own { IsSamePass pass.old pass.new × IsPassOf space.now pass.new }
    ensures did { HoldsIf pass.old page result pass.new }
    ensures fits { IsFittedTree (view pass.new) }
{
    let backoff = Backoff::new();
    for _ in wait.forever() {
        match look_for(space, pass, page, wait) {
            Looked::Held(block) => return Some(block),
            Looked::Free => return None,
            Looked::Busy => backoff.snooze(),
            Looked::NoRoom => backoff.snooze(),
        }
    }
    unreachable!()
}

// Whether the frame has a page of the trees, of this index and level.
fn has_tree_page(frame: &Frame, index: u32, level: u16) -> bool
    ensures there { IsTrue result → HasTreePage frame.now index level }
    ensures none { HasTreePage frame.now index level → IsTrue result }
{
    match &frame.page {
        Some(page) => {
            let head = page.head();
            head.prev != Some(head.number) && head.index == index && head.level == level
        }
        None => false,
    }
}

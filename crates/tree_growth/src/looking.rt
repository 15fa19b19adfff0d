//! Whether a page in hand has room for what may come to it.
ghost use Rattle.std.specs.Prelude.{◌≡◌, ◌≤◌, Some};
ghost use Rattle.latch_space.specs.Spaces.{IsPassOf};
ghost use Rattle.index_page.specs.declared.TheConstants.{MAX_CHARGE};
ghost use Rattle.index_page.specs.Page.{PageRows};
ghost use Rattle.forest_law.specs.declared.objects.Frame.{Frame};
ghost use Rattle.forest_world.specs.Held.{HasFrame};
ghost use Rattle.buffer_pool.specs.Forests.{IsForest};
ghost use Rattle.tree_growth.specs.Pages.{needed, TellsRoom, HoldsPagedFrame};

use buffer_pool::frame;
use forest_world::{ForestPass, ForestSpace};
use index_page::{PAGE_ROOM, Page};
use key_tuple::MAX_POINTER_SIZE;

/// A page in hand on the way down.
#[derive(Drop, Clone, Copy)]
pub struct PageInHand {
    /// The block whose frame has the page.
    pub block: u32,
    /// The page's level.
    pub level: u16,
    /// Whether the page has too little room for what may come to it.
    pub is_full: bool,
}

/// What there is to know of the page in the block's frame.
pub fn page_in_hand(space: &ForestSpace, pass: &ForestPass, block: u32, need: u16) -> PageInHand
    requires own { IsForest space.now × IsPassOf space.now pass.now }
    requires held { HoldsPagedFrame pass.now block }
    requires need { need ≤ MAX_CHARGE }
    ensures { (f : Frame) (page : PageRows) → HasFrame pass.now block f f → f.page ≡ Some page
        → TellsRoom block page need result }
{
    match &frame(space, pass, block).page {
        Some(page) => room_on(page, block, need),
        None => unreachable!(),
    }
}

// The same of a page.
fn room_on(page: &Page, block: u32, need: u16) -> PageInHand
    requires { need ≤ MAX_CHARGE }
    ensures { TellsRoom block page.now need result }
{
    page.is_in_order();
    let level = page.head().level;
    PageInHand {
        block,
        level,
        is_full: page.load() > PAGE_ROOM - room_for(level, need),
    }
}

// What has to be free on a page of this level.
fn room_for(level: u16, need: u16) -> u16
    requires { need ≤ MAX_CHARGE }
    ensures room { result ≡ needed level need }
    ensures most { result ≤ MAX_CHARGE }
{
    if level == 0 {
        need
    } else {
        MAX_POINTER_SIZE + 1
    }
}

//! The page of a frame in hand.
ghost use Rattle.std.specs.Prelude.{◌≡◌, Some};
ghost use Rattle.latch_space.specs.Spaces.{IsPassOf};
ghost use Rattle.index_page.specs.Page.{PageRows};
ghost use Rattle.forest_law.specs.declared.objects.Frame.{Frame};
ghost use Rattle.forest_world.specs.Held.{HasFrame};
ghost use Rattle.buffer_pool.specs.Forests.{IsForest};
ghost use Rattle.tree_growth.specs.Pages.{HoldsPagedFrame};

use buffer_pool::frame;
use forest_world::{ForestPass, ForestSpace};
use index_page::Page;

/// The page of the block's frame.
pub(crate) fn held_page<'p>(space: &ForestSpace, pass: &'p ForestPass, block: u32) -> &'p Page
    requires own { IsForest space.now × IsPassOf space.now pass.now }
    requires held { HoldsPagedFrame pass.now block }
    ensures { (f : Frame) (page : PageRows) → HasFrame pass.now block f f → f.page ≡ Some page
        → result.now ≡ page }
{
    match &frame(space, pass, block).page {
        Some(page) => page,
        None => unreachable!(),
    }
}

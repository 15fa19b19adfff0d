//! The page behind two halves, in hand.
ghost use Rattle.std.specs.Prelude.{◌≢◌};
ghost use Rattle.latch_space.specs.Passes.{IsSamePass};
ghost use Rattle.latch_space.specs.Spaces.{IsPassOf};
ghost use Rattle.index_page.specs.declared.TheConstants.{NO_PAGE};
ghost use Rattle.buffer_pool.specs.Forests.{IsForest};
ghost use Rattle.tree_smo.specs.Plans.{HasNext, RelinksBehind};

use buffer_pool::{frame_back, frame_out};
use forest_world::{ForestPass, ForestSpace};
use tree_restructure::relink_next;

/// Gives the page in the block `next` the page `right` as its left neighbour, where there is a page
/// behind.
pub fn relink_behind(space: &ForestSpace, pass: &mut ForestPass, next: Option<u32>, right: u32)
    requires own { IsForest space.now × IsPassOf space.now pass.old }
    requires held { HasNext pass.old next }
    requires right { right ≢ NO_PAGE }
    ensures own { IsSamePass pass.old pass.new × IsPassOf space.now pass.new }
    ensures relinks { RelinksBehind pass.old next right pass.new }
{
    match next {
        Some(block) => {
            let mut frame = frame_out(space, pass, block);
            relink_next(&mut frame, right);
            frame_back(space, pass, block, frame);
        }
        None => {}
    }
}

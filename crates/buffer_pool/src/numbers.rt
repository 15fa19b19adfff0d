//! The numbers of the objects, which nothing else here speaks of.
ghost use Rattle.std.specs.Prelude.{◌≡◌, ◌<◌};
ghost use Rattle.latch_space.specs.Spaces.{IsPassOf};
ghost use Rattle.forest_law.specs.Numbers.{tree_id, frame_id, frames_of};
ghost use Rattle.forest_world.specs.Held.{shape_of_pass};
ghost use Rattle.buffer_pool.specs.Forests.{IsForest};

use forest_world::{ForestPass, ForestSpace, shape};

/// The number of the block's frame.
pub(crate) fn frame_number(space: &ForestSpace, pass: &ForestPass, block: u32) -> u32
    requires own { IsForest space.now × IsPassOf space.now pass.now }
    requires there { block < frames_of (shape_of_pass pass.now) }
    ensures { result ≡ frame_id (shape_of_pass pass.now) block }
{
    let _ = pass;
    shape(space).frame_id(block)
}

/// The number of the index's tree.
pub(crate) fn tree_number(space: &ForestSpace, pass: &ForestPass, index: u32) -> u32
    requires own { IsForest space.now × IsPassOf space.now pass.now }
    requires there { index < (shape_of_pass pass.now).indexes }
    ensures { result ≡ tree_id index }
{
    let _ = pass;
    shape(space).tree_id(index)
}

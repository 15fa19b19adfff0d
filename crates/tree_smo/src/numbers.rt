//! How many page numbers there may be.
ghost use Rattle.std.specs.Prelude.{◌<◌, ◌^◌};
ghost use Rattle.latch_space.specs.Spaces.{IsPassOf};
ghost use Rattle.forest_world.specs.Held.{shape_of_pass};

use forest_world::{ForestPass, ForestSpace, shape};

/// The number of pages is one of four bytes, so no page has the number that stands for none.
pub fn pages_are_numbered(space: &ForestSpace, pass: &ForestPass)
    requires own { IsPassOf space.now pass.now }
    ensures { (shape_of_pass pass.now).pages < 2 ^ 32 }
{
    let _ = pass;
    let _pages = shape(space).pages();
}

//! How a space of trees begins.
ghost use Rattle.std.specs.Prelude.{◌≡◌, ◌<◌, ◌≤◌, ◌+◌, ◌^◌, length, IfOk};
ghost use Rattle.latch_law.specs.Rule.{first_view};
ghost use Rattle.latch_space.specs.Passes.{view, count};
ghost use Rattle.latch_space.specs.Spaces.{IsPassOf};
ghost use Rattle.index_law.specs.Shape.{shape_for};
ghost use Rattle.forest_law.specs.Counted.{SuitsHash};
ghost use Rattle.forest_world.specs.Opening.{forest_terms};

use crate::world::{ForestPass, ForestSpace};
use forest_law::{ForestLayout, first_forest, forests_open_lawfully};
use key_tuple::NoMemory;
use map_history::Sizes;
use std::alloc::Global;

/// A space of these sizes, for indexes with so many fields each, and its first pass, which has all
/// numbers. Each index is an empty root, which is an image, and all frames begin with this clock.
pub fn open_forest(
    alloc: Global,
    sizes: &Sizes,
    fields: &[u8],
    passes: u32,
    clock: u64,
) -> Result<(ForestSpace, ForestPass), NoMemory>
    requires room { length fields.now ≤ sizes.now.pages }
    requires few { 1 + length fields.now + sizes.now.parts + sizes.now.blocks < 2 ^ 32 }
    requires cells { 1 ≤ sizes.now.cells }
    requires hash { SuitsHash (shape_for sizes.now fields.now) }
    requires passes { 0 < passes }
    ensures own { IfOk result (λ r. IsPassOf r.0 r.1) }
    ensures terms { IfOk result (λ r. r.0.terms ≡ forest_terms sizes.now fields.now passes) }
    ensures first { IfOk result (λ r. (view r.1 ≡ first_view r.0.terms) × (count r.1 ≡ 0)) }
{
    forests_open_lawfully();
    let layout = ForestLayout::try_new(alloc, sizes, fields)?;
    let objects = first_forest(alloc, &layout, clock)?;
    let most = u64::from(sizes.max_changes);
    ForestSpace::open(alloc, layout, objects, fields.len() as u32, most, passes).map_err(
        |_| NoMemory,
    )
}

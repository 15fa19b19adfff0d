//! What a pass and a space of trees tell. A call of a generic function writes out the types that it
//! is called with, and those of this world are long, so it stands here once.
ghost use Rattle.std.specs.Prelude.{◌≡◌};
ghost use Rattle.latch_law.specs.Fitting.{IsFitted};
ghost use Rattle.latch_space.specs.Passes.{view};
ghost use Rattle.index_law.specs.Rightness.{IsRight};
ghost use Rattle.forest_law.specs.Law.{IsLawful};
ghost use Rattle.forest_law.specs.References.{IsReference};

use crate::world::{ForestPass, ForestSpace};
use forest_law::ForestLayout;

/// Tells that some lawful state fits the pass.
pub fn fits(pass: &ForestPass)
    ensures { IsFitted IsLawful IsRight IsReference (view pass.now) }
{
    pass.fits();
}

/// The shape that the space was opened with.
pub fn shape(space: &ForestSpace) -> &ForestLayout
    ensures { result.now ≡ space.now.terms.shape }
{
    space.shape()
}

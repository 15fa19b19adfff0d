//! A space of two indexes, whose keys have one field, and callers on it.
ghost use Rattle.std.specs.Prelude.{◌≡◌, ◌≤◌, [], ◌∷◌};
ghost use Rattle.latch_space.specs.Passes.{count};
ghost use Rattle.latch_space.specs.Spaces.{IsPassOf};
ghost use Rattle.buffer_pool.specs.Forests.{IsForest};

use crate::claims::ensure;
use forest_world::{ForestPass, ForestSpace, open_forest};
use map_history::Sizes;
use std::process::Abort;

/// The space.
#[derive(Drop)]
pub(crate) struct Site {
    pub(crate) space: ForestSpace,
    ghost forest: { IsForest space },
    ghost few: { space.terms.shape.pages ≤ 65536 },
    ghost two: { space.terms.shape.indexes ≡ 2 },
    ghost fields: { space.terms.shape.fields ≡ 1 ∷ 1 ∷ [] },
    ghost most: { space.terms.max_changes ≡ 1000000 },
}

/// One who changes rows of the space, or looks for them. It holds nothing between two calls.
#[derive(Drop)]
pub(crate) struct Caller<'a> {
    pub(crate) site: &'a Site,
    pub(crate) pass: ForestPass,
    ghost own: { IsPassOf site.now.space pass },
    ghost nothing: { count pass ≡ 0 },
}

impl<'a> Caller<'a> {
    /// One who works by this pass.
    pub(crate) fn new(site: &'a Site, pass: ForestPass) -> Caller<'a>
        requires own { IsPassOf site.now.space pass }
        requires nothing { count pass ≡ 0 }
    {
        Caller { site, pass }
    }
}

/// A space of so many blocks and pages, whose frames begin with this clock, and two passes of it: the
/// numbers of the first are 0 to 4, and those of the other 5 to 9.
pub(crate) fn open_site<R: AllocGlobal + Abort>(
    rt: &R,
    blocks: u32,
    pages: u32,
    clock: u64,
) -> (Site, ForestPass, ForestPass)
    ensures first { IsPassOf result.0.space result.1 × (count result.1 ≡ 0) }
    ensures other { IsPassOf result.0.space result.2 × (count result.2 ≡ 0) }
{
    ensure(rt, blocks <= 1000, "few blocks");
    ensure(rt, pages >= 2 && pages <= 1000, "pages for two roots");
    let sizes = Sizes {
        blocks,
        pages,
        parts: 1,
        cells: 16,
        nodes: 16,
        fold_bits: 64,
        max_changes: 1_000_000,
    };
    let (space, mut pass) = open_forest(rt.alloc(), &sizes, &[1, 1], 10, clock).expect(
        rt, "a space",
    );
    let other = space
        .split(rt.alloc(), &mut pass)
        .expect(rt, "another pass");
    (Site { space }, pass, other)
}

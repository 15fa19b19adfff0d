//! The engine, and the passes that callers work with.
ghost use Rattle.std.specs.Prelude.{◌≡◌, ◌≤◌};
ghost use Rattle.latch_space.specs.Passes.{view, count};
ghost use Rattle.search_info.specs.Passes.{knowledge};
ghost use Rattle.buffer_pool.specs.Forests.{IsForest};
ghost use Rattle.index_engine.specs.Learners.{KnowsFields};

use forest_world::{ForestPass, ForestSpace};
use map_history::Sizes;
use search_info::{LearnPass, Learner};
use std::alloc::Global;

/// Some indexes, shared by all who have a pass of it.
pub struct Engine {
    pub(crate) space: ForestSpace,
    pub(crate) learner: Learner,
    pub(crate) alloc: Global,
    ghost forest: { IsForest space },
    ghost few: { space.terms.shape.pages ≤ 65536 },
    ghost learns: { KnowsFields learner space.terms.shape },
}

/// What a caller works with. It holds nothing between two calls.
pub struct EnginePass {
    pub(crate) world: ForestPass,
    pub(crate) learn: LearnPass,
    pub(crate) sizes: Sizes,
    ghost nothing: { count world ≡ 0 },
    ghost most: { sizes.max_changes ≡ (view world).terms.max_changes },
    ghost low: { (knowledge learn).low ≡ (view world).low },
    ghost end: { (knowledge learn).end ≡ (view world).end },
}

impl Engine {
    /// The space alone. The rest is dropped.
    pub(crate) fn into_space(self) -> ForestSpace
        ensures { result ≡ self.space }
    {
        let Self {
            space,
            learner: _,
            alloc: _,
        } = self;
        space
    }
}

impl EnginePass {
    /// The pass of the space, and that of the learner.
    pub(crate) fn into_parts(self) -> (ForestPass, LearnPass)
        ensures { (result.0 ≡ self.world) × (result.1 ≡ self.learn) }
    {
        let Self {
            world,
            learn,
            sizes: _,
        } = self;
        (world, learn)
    }
}

// A crate above drops these by one call. Were `Drop` derived, the drop of each type within would be
// proved again in each such crate.

impl Drop for Engine {
    fn drop(self) {
        let Self {
            space: _,
            learner: _,
            alloc: _,
        } = self;
    }
}

impl Drop for EnginePass {
    fn drop(self) {
        let Self {
            world: _,
            learn: _,
            sizes: _,
        } = self;
    }
}

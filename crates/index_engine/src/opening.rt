//! How an engine begins.
ghost use Rattle.std.specs.Prelude.{◌≡◌, ◌⊎◌, ◌<◌, ◌≤◌, length, Some, Err, IfOk, IfErr, IfSome};
ghost use Rattle.std.specs.List.{All};
ghost use Rattle.std.specs.Option.{IsSomeAnd};
ghost use Rattle.key_tuple.specs.declared.TheConstants.{MAX_FIELDS};
ghost use Rattle.latch_law.specs.Rule.{first_view};
ghost use Rattle.search_info.specs.Passes.{knowledge, opening, IsLearnPassOf};
ghost use Rattle.forest_world.specs.Opening.{forest_terms};
ghost use Rattle.index_engine.specs.Engines.{known, lessons_of, IsOf};
ghost use Rattle.index_engine.specs.Learners.{nothing_learnt};
ghost use Rattle.settings.specs.Limits.{first_broken};

use crate::engine::{Engine, EnginePass};
use crate::error::EngineError;
use forest_world::open_forest;
use key_tuple::NoMemory;
use map_history::{MAX_INDEXES, MAX_LANES, Sizes};
use search_info::{Info, LearnPass, Learner};
use settings::broken_setting;
use std::alloc::Global;

impl Engine {
    /// An engine of these sizes, and its first pass, which has the numbers from 0 up to `lanes`.
    /// `fields` says how many fields the keys of each index have. The first setting that is outside
    /// its limits is refused.
    pub fn open(
        alloc: Global,
        sizes: &Sizes,
        fields: &[u8],
        lanes: u32,
    ) -> Result<(Engine, EnginePass), EngineError>
        requires indexes { (0 < length fields.now) × (length fields.now ≤ MAX_INDEXES) }
        requires keyed { All (λ n. (1 ≤ n) × (n ≤ MAX_FIELDS)) fields.now }
        requires lanes { (0 < lanes) × (lanes ≤ MAX_LANES) }
        ensures ok { IfOk result (λ r. IsOf r.0 r.1 × (r.1.sizes ≡ sizes.now)
            × (known r.1 ≡ first_view (forest_terms sizes.now fields.now lanes))) }
        ensures untaught { IfOk result (λ r. lessons_of r.1 ≡ nothing_learnt fields.now lanes) }
        ensures refused { IfSome (first_broken sizes.now (length fields.now) lanes)
            (λ s. result ≡ Err (EngineError.BadSize s)) }
        ensures cause { IfErr result (λ e. (e ≡ EngineError.NoMemory)
            ⊎ IsSomeAnd (first_broken sizes.now (length fields.now) lanes)
            (λ s. e ≡ EngineError.BadSize s)) }
    {
        if let Some(setting) = broken_setting(sizes, fields.len() as u32, lanes) {
            return Err(EngineError::BadSize(setting));
        }
        // All clocks begin at 0.
        let (space, world) = open_forest(alloc, sizes, fields, lanes, 0)?;
        let (learner, learn) = open_learner(alloc, fields, lanes)?;
        let sizes = *sizes;
        let pass = EnginePass {
            world,
            learn,
            sizes,
        };
        let engine = Engine {
            space,
            learner,
            alloc,
        };
        Ok((engine, pass))
    }
}

/// A learner of indexes with so many fields each, which has learnt nothing.
fn open_learner(alloc: Global, fields: &[u8], passes: u32) -> Result<(Learner, LearnPass), NoMemory>
    requires few { length fields.now ≤ MAX_INDEXES }
    requires keyed { All (λ n. (1 ≤ n) × (n ≤ MAX_FIELDS)) fields.now }
    requires passes { 0 < passes }
    ensures own { IfOk result (λ r. IsLearnPassOf r.0 r.1) }
    ensures opening { IfOk result (λ r. opening r.0
        ≡ (nothing_learnt fields.now passes).opening) }
    ensures untaught { IfOk result (λ r. knowledge r.1 ≡ nothing_learnt fields.now passes) }
{
    let first = vec![in alloc; Info::opening(); fields.len()]?;
    Learner::open(alloc, first.as_slice(), fields, passes)
}

//! Joining passes again.
ghost use Rattle.std.specs.Prelude.{◌≡◌, [], MatchOption};
ghost use Rattle.lane_threads.specs.Gathered.{ArePassesOf, AreInRow, Gathers};

use index_engine::{Engine, EnginePass};

/// Joins passes whose numbers follow one another, from the last to the first. No pass makes `None`.
pub(crate) fn gather(engine: &Engine, mut passes: Vec<EnginePass>) -> Option<EnginePass>
    requires own { ArePassesOf engine.now passes.items }
    requires row { AreInRow passes.items }
    ensures { MatchOption result (passes.items ≡ [])
        (λ whole. Gathers engine.now passes.items whole) }
{
    let mut whole = passes.pop()?;
    while let Some(mut lower) = passes.pop() {
        engine.join(&mut lower, whole);
        whole = lower;
    }
    Some(whole)
}

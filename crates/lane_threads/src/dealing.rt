//! Dealing out a pass.
ghost use Rattle.std.specs.Prelude.{◌≡◌, [], IfOk};
ghost use Rattle.lane_threads.specs.Engine.{known, lessons_of, IsOf};
ghost use Rattle.lane_threads.specs.Dealt.{AreDealt, AreFresh, AddsDealt};

use index_engine::{Engine, EnginePass};
use key_tuple::NoMemory;
use std::alloc::Global;

/// A pass for each number of this one, in order. After `NoMemory` the pass is gone, and its numbers
/// with it.
#[tactic(auto, using(crate::proofs::DealLemmas::fresh_dealt))]
pub(crate) fn deal(
    alloc: Global,
    engine: &Engine,
    pass: EnginePass,
) -> Result<Vec<EnginePass>, NoMemory>
    requires own { IsOf engine.now pass }
    ensures ok { IfOk result (λ passes. AreDealt engine.now pass passes.items) }
    ensures fresh { (known pass).said ≡ [] → (lessons_of pass).tries ≡ []
        → IfOk result (λ passes. AreFresh passes.items) }
{
    let mut passes = Vec::new(alloc);
    deal_onto(alloc, engine, pass, &mut passes)?;
    Ok(passes)
}

/// Puts a pass for each number of this one behind the others.
fn deal_onto(
    alloc: Global,
    engine: &Engine,
    mut pass: EnginePass,
    passes: &mut Vec<EnginePass>,
) -> Result<(), NoMemory>
    requires own { IsOf engine.now pass }
    ensures { IfOk result (λ _. AddsDealt engine.now pass passes.old.items passes.new.items) }
{
    let (low, end) = pass.numbers();
    if end - low >= 2 {
        let upper = engine.split(alloc, &mut pass)?;
        deal_onto(alloc, engine, pass, passes)?;
        deal_onto(alloc, engine, upper, passes)
    } else {
        passes.push(pass)?;
        Ok(())
    }
}

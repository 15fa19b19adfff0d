//! Lanes made ready.
ghost use Rattle.std.specs.Prelude.{◌≡◌, ◌+◌, length, IfOk};
ghost use Rattle.std.specs.List.{AllByRecursion};
ghost use Rattle.lane_threads.specs.Engine.{known, IsOf, indexes_of};
ghost use Rattle.lane_threads.specs.Workable.{AreWorkable};
ghost use Rattle.lane_threads.specs.Dealt.{AreLanes};
ghost use Rattle.lane_threads.specs.Doing.{IsReadyFor, AreReadyFor};

use crate::doer::{LaneDoer, ReadyLane};
use index_engine::{Engine, EnginePass};
use key_tuple::NoMemory;
use map_history::Line;
use std::alloc::Global;

/// A doer for each lane, with the pass at its place. The engine has so many indexes.
pub(crate) fn ready_lanes<'e, 'a>(
    alloc: Global,
    engine: &'e Engine,
    passes: Vec<EnginePass>,
    lanes: &'a [Vec<Line>],
    indexes: usize,
) -> Result<Vec<LaneDoer<'e, 'a>>, NoMemory>
    requires long { length passes.items ≡ length lanes.now }
    requires own { AreLanes engine.now 0 passes.items }
    requires indexes { indexes ≡ indexes_of engine.now }
    requires lines { AllByRecursion (λ lines. AreWorkable engine.now lines.items) lanes.now }
    ensures { IfOk result (λ doers. AreReadyFor engine.entry.now passes.items
        lanes.entry.now doers.items) }
{
    let mut doers = Vec::with_capacity(alloc, lanes.len())?;
    let mut given = passes.into_iter();
    for lines in lanes {
        let Some(pass) = given.next() else {
            unreachable!()
        };
        doers.push_reserved(ready(alloc, engine, pass, lines, indexes));
    }
    Ok(doers)
}

/// A doer for these lines. Its lane has the number that ends its pass.
fn ready<'e, 'a>(
    alloc: Global,
    engine: &'e Engine,
    pass: EnginePass,
    lines: &'a [Line],
    indexes: usize,
) -> LaneDoer<'e, 'a>
    requires own { IsOf engine.now pass }
    requires one { (known pass).end ≡ (known pass).low + 1 }
    requires indexes { indexes ≡ indexes_of engine.now }
    requires lines { AreWorkable engine.now lines.now }
    ensures { IsReadyFor engine.entry.now pass lines.entry.now result }
{
    let (_, lane) = pass.numbers();
    let ready = ReadyLane {
        alloc,
        engine,
        pass,
        lane,
        indexes,
        lines,
    };
    LaneDoer {
        ready: Some(ready),
        done: None,
    }
}

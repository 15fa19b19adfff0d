//! All lanes together.
ghost use Rattle.std.specs.Prelude.{◌≡◌, ◌⊎◌, ◌<◌, ◌≤◌, length, Err, IfOk, IfErr, IfSome};
ghost use Rattle.std.specs.List.{All, AllByRecursion};
ghost use Rattle.std.specs.Option.{IsSomeAnd};
ghost use Rattle.key_tuple.specs.declared.TheConstants.{MAX_FIELDS};
ghost use Rattle.map_history.specs.declared.TheConstants.{MAX_INDEXES, MAX_LANES};
ghost use Rattle.settings.specs.Limits.{first_broken};
ghost use Rattle.latch_law.specs.Rule.{first_view};
ghost use Rattle.forest_world.specs.Opening.{forest_terms};
ghost use Rattle.lane_threads.specs.Engine.{known, lessons_of, nothing_learnt, IsOf};
ghost use Rattle.lane_law.specs.Lines.{AreLinesOf};
ghost use Rattle.lane_threads.specs.Together.{lane_texts, RanTogether};

use crate::apart::take_apart;
use crate::dealing::deal;
use crate::gathering::gather;
use crate::readying::ready_lanes;
use change_log::LaneLog;
use column_counts::add_up;
use index_engine::{Engine, EngineError, EnginePass};
use key_tuple::NoMemory;
use lanes::{Gate, run_lanes};
use map_history::{Counts, Line, Sizes};
use report_text::Texts;
use std::alloc::Global;
use std::sync::Wait;
use std::thread::Threads;

/// What lanes were told together: the printed answers of each, what each noted, for each index the
/// counts of the words in its answers' columns, and the pass of all lanes.
#[derive(Drop)]
pub struct LanesWork<'a> {
    pub answers: Vec<Texts>,
    pub logs: Vec<LaneLog<'a>>,
    pub counts: Vec<Counts>,
    pub pass: EnginePass,
}

/// Opens an engine of these sizes, and works each lane's lines in a thread of its own where one can
/// be made. A lane that lacks memory makes the whole `NoMemory`, once all lanes have ended.
pub fn work_lanes<'a, R: Threads + Sync, W: Wait + Sync, G: Gate + Sync>(
    rt: &R,
    wait: &W,
    alloc: Global,
    sizes: &Sizes,
    fields: &[u8],
    lanes: &'a [Vec<Line>],
    gate: &G,
) -> Result<LanesWork<'a>, EngineError>
    requires indexes { (0 < length fields.now) × (length fields.now ≤ MAX_INDEXES) }
    requires keyed { All (λ n. (1 ≤ n) × (n ≤ MAX_FIELDS)) fields.now }
    requires lanes { (0 < length lanes.now) × (length lanes.now ≤ MAX_LANES) }
    requires lines { AllByRecursion (λ lines. AreLinesOf fields.now lines.items) lanes.now }
    ensures ok { IfOk result (λ work. RanTogether sizes.now fields.now (lane_texts lanes.now)
        work.answers.items work.logs.items work.counts.items work.pass) }
    ensures refused { IfSome (first_broken sizes.now (length fields.now) (length lanes.now))
        (λ s. result ≡ Err (EngineError.BadSize s)) }
    ensures cause { IfErr result (λ e. (e ≡ EngineError.NoMemory)
        ⊎ IsSomeAnd (first_broken sizes.now (length fields.now) (length lanes.now))
        (λ s. e ≡ EngineError.BadSize s)) }
{
    let (engine, pass) = Engine::open(alloc, sizes, fields, lanes.len() as u32)?;
    Ok(work_opened(rt, wait, alloc, &engine, pass, fields, lanes, gate)?)
}

/// Works each lane's lines over an engine that was just opened, with the pass of all lanes.
fn work_opened<'a, R: Threads + Sync, W: Wait + Sync, G: Gate + Sync>(
    rt: &R,
    wait: &W,
    alloc: Global,
    engine: &Engine,
    pass: EnginePass,
    fields: &[u8],
    lanes: &'a [Vec<Line>],
    gate: &G,
) -> Result<LanesWork<'a>, NoMemory>
    requires own { IsOf engine.now pass }
    requires fresh { known pass
        ≡ first_view (forest_terms pass.sizes fields.now (length lanes.now)) }
    requires untaught { lessons_of pass ≡ nothing_learnt fields.now (length lanes.now) }
    requires lanes { 0 < length lanes.now }
    requires lines { AllByRecursion (λ lines. AreLinesOf fields.now lines.items) lanes.now }
    ensures { IfOk result (λ work. RanTogether pass.sizes fields.now (lane_texts lanes.now)
        work.answers.items work.logs.items work.counts.items work.pass) }
{
    let passes = deal(alloc, engine, pass)?;
    let doers = ready_lanes(alloc, engine, passes, lanes, fields.len())?;
    let worked = run_lanes(rt, wait, doers, gate);
    let parts = take_apart(alloc, worked)?;
    let counts = add_up(alloc, fields.len(), &parts.counts)?;
    let Some(pass) = gather(engine, parts.passes) else {
        unreachable!()
    };
    pass.fits();
    Ok(LanesWork {
        answers: parts.answers,
        logs: parts.logs,
        counts,
        pass,
    })
}

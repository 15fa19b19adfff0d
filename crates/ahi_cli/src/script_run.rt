//! A script's lanes, run and reported.
ghost use Rattle.std.specs.Prelude.{◌≡◌, ◌≤◌, None, length};
ghost use Rattle.script.specs.Views.{schema_text};
ghost use Rattle.lane_threads.specs.Together.{lane_texts, RanTogether};
ghost use Rattle.ahi_cli.specs.Ends.{Ends, output_of};
ghost use Rattle.ahi_cli.specs.FirstRefusal.{sizes_stop};
ghost use Rattle.ahi_cli.specs.Run.{IsReportOf, IsReportBy};
ghost use Rattle.ahi_cli.specs.Scripts.{IsScript, TellsScript, RefusesSizes};
ghost use Rattle.ahi_cli.specs.Trail.{LeavesTrail};

use crate::files::Script;
use crate::run::{halted, refuse};
use crate::status::Status;
use crate::stop::Stop;
use change_log::merge;
use io_port::Sink;
use lane_threads::{EngineError, EnginePass, LanesWork, work_lanes};
use lanes::Gate;
use report_print::put_report;
use std::alloc::Global;
use std::sync::Wait;
use std::thread::Threads;

/// Runs the lanes of a script and puts their report, or refuses the script's sizes.
pub(crate) fn run_script<R: Threads + Sync, W: Wait + Sync, K: Sink, G: Gate + Sync>(
    rt: &R,
    wait: &W,
    alloc: Global,
    script: &Script,
    sink: &mut K,
    gate: &G,
    trail: &mut Option<EnginePass>,
) -> Status
    requires script { IsScript script.now }
    requires trail { trail.old ≡ None }
    ensures ends { Ends (TellsScript IsReportOf script.now) (RefusesSizes script.now)
        (output_of K.Sink sink.old sink.new) result }
    ensures trail { LeavesTrail (λ pass. TellsScript (IsReportBy pass) script.now)
        (output_of K.Sink sink.old sink.new) trail.new result }
{
    let schema = &script.schema;
    match work_lanes(
        rt,
        wait,
        alloc,
        &schema.sizes,
        &schema.fields,
        &script.lanes,
        gate,
    ) {
        Ok(work) => put_work(alloc, script, work, sink, trail),
        Err(EngineError::BadSize(setting)) => refuse(alloc, sink, Stop::Sizes { setting }),
        Err(EngineError::NoMemory) => Status::NoMemory,
    }
}

/// Puts the report of lanes that were run, and leaves their pass where it was put whole.
fn put_work<K: Sink>(
    alloc: Global,
    script: &Script,
    work: LanesWork<'_>,
    sink: &mut K,
    trail: &mut Option<EnginePass>,
) -> Status
    requires script { IsScript script.now }
    requires allowed { sizes_stop (schema_text script.now.schema) (length script.now.lanes.items) ≡ None }
    requires ran { RanTogether script.now.schema.sizes script.now.schema.fields.items
        (lane_texts script.now.lanes.items) work.answers.items work.logs.items work.counts.items
        work.pass }
    requires trail { trail.old ≡ None }
    ensures ends { Ends (TellsScript IsReportOf script.now) (RefusesSizes script.now)
        (output_of K.Sink sink.old sink.new) result }
    ensures trail { LeavesTrail (λ pass. TellsScript (IsReportBy pass) script.now)
        (output_of K.Sink sink.old sink.new) trail.new result }
{
    let names = &script.schema.names;
    let LanesWork {
        answers,
        logs,
        counts,
        pass,
    } = work;
    let Ok(changes) = merge(alloc, &logs, names.len()) else {
        return Status::NoMemory;
    };
    match put_report(alloc, sink, names, &answers, &changes, &counts) {
        Ok(()) => {
            *trail = Some(pass);
            Status::Done
        }
        Err(halt) => halted(halt),
    }
}

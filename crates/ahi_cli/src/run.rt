//! The top call.
ghost use Rattle.std.specs.Prelude.{◌≡◌, ◌≢◌, map, string_bytes};
ghost use Rattle.report_print.specs.Prints.{PrintsTo};
ghost use Rattle.ahi_cli.specs.Prints.{EndsRefusedAt, halted, ended};
ghost use Rattle.ahi_cli.specs.Ends.{Ends, output_of};
ghost use Rattle.ahi_cli.specs.Run.{asked_of, Reports, ReportsBy, Stops};
ghost use Rattle.ahi_cli.specs.Stops.{stop_text};
ghost use Rattle.ahi_cli.specs.Trail.{LeavesTrail};

use crate::files::read_script;
use crate::script_run::run_script;
use crate::status::Status;
use crate::stop::Stop;
use crate::words::accept;
use io_port::{Shelf, Sink};
use lane_threads::EnginePass;
use lanes::Gate;
use report_print::{Halt, put_line};
use std::alloc::Global;
use std::sync::Wait;
use std::thread::Threads;

/// Runs the program on the words after its name: reads the files from the shelf, the schema first,
/// then the lanes, runs the lanes in threads, and puts the report to the sink line by line, or the
/// line of the first refusal. Lane k, counted from 1, asks the gate before each of its lines.
///
/// `Done` means that the bytes put are a legal report of what the files spell, whatever order the
/// lanes' steps came in. `trail` is then the pass of all lanes, which did what is printed; after
/// any other status it is `None`.
pub fn run_words<
    R: AllocGlobal + Threads + Sync,
    W: Wait + Sync,
    F: Shelf,
    K: Sink,
    G: Gate + Sync,
>(
    rt: &R,
    wait: &W,
    words: &[String],
    shelf: &mut F,
    sink: &mut K,
    gate: &G,
    trail: &mut Option<EnginePass>,
) -> Status
    ensures ends { let asked = asked_of (map string_bytes words.now) F.Shelf shelf.old shelf.new in
        Ends (Reports asked) (Stops asked) (output_of K.Sink sink.old sink.new) result }
    ensures trail { let asked = asked_of (map string_bytes words.now) F.Shelf shelf.old shelf.new in
        LeavesTrail (λ pass. ReportsBy pass asked) (output_of K.Sink sink.old sink.new)
        trail.new result }
{
    let alloc = rt.alloc();
    *trail = None;
    let Some(command) = accept(words) else {
        return refuse(alloc, sink, Stop::Usage);
    };
    match read_script(alloc, shelf, &command) {
        Ok(script) => run_script(rt, wait, alloc, &script, sink, gate, trail),
        Err(stop) => refuse(alloc, sink, stop),
    }
}

/// Puts the line of a refusal.
pub(crate) fn refuse<K: Sink>(alloc: Global, sink: &mut K, stop: Stop) -> Status
    ensures ends { EndsRefusedAt K.Sink sink.old sink.new stop result }
    ensures other { result ≢ Status.Done }
{
    if let Stop::NoMemory = stop {
        return Status::NoMemory;
    }
    end(put_stop(alloc, sink, &stop), stop.status())
}

fn put_stop<K: Sink>(alloc: Global, sink: &mut K, stop: &Stop) -> Result<(), Halt>
    ensures { PrintsTo K.Sink sink.old sink.new (stop_text stop.now) result }
{
    let mut line = Vec::new(alloc);
    stop.put_text(&mut line)?;
    put_line(sink, &line)
}

/// The status with which printing ends.
fn end(printed: Result<(), Halt>, done: Status) -> Status
    ensures { result ≡ ended printed done }
{
    match printed {
        Ok(()) => done,
        Err(halt) => halted(halt),
    }
}

/// The status with which printing ends that was halted.
pub(crate) fn halted(halt: Halt) -> Status
    ensures { result ≡ halted halt }
{
    match halt {
        Halt::SinkFault => Status::SinkFault,
        Halt::NoMemory => Status::NoMemory,
    }
}

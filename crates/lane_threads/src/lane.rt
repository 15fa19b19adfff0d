//! A whole lane.
ghost use Rattle.std.specs.Prelude.{◌≡◌, ◌+◌, ◌<◌, [], length, replicate, IsSome, IfOk, OnOk};
ghost use Rattle.map_history.specs.Lines.{line_text, line_texts};
ghost use Rattle.map_history.specs.Statistics.{counts_of};
ghost use Rattle.map_history.specs.Told.{answer_of};
ghost use Rattle.index_engine.specs.Engines.{known, IsOf, IsSame, indexes_of};
ghost use Rattle.lane_threads.specs.Workable.{AreWorkable};
ghost use Rattle.lane_threads.specs.Works.{Works, AddsLine, NotesLine};

use crate::line::work_line;
use change_log::{LaneChange, LaneLog};
use column_counts::{count_told, no_counts};
use index_engine::{Engine, EnginePass};
use key_tuple::NoMemory;
use lanes::Gate;
use map_history::{Counts, Line, Reply, RowBuf, Told};
use report_text::Texts;
use std::alloc::Global;
use std::sync::Wait;

/// What a lane was told: its printed answers, the changes that it made, and for each index the
/// counts of the words in its answers' columns.
#[derive(Drop)]
pub(crate) struct LaneWork<'a> {
    pub(crate) answers: Texts,
    pub(crate) log: LaneLog<'a>,
    pub(crate) counts: Vec<Counts>,
}

impl<'a> LaneWork<'a> {
    /// Nothing told yet, with room for so many lines.
    fn reserve(alloc: Global, lines: usize, indexes: usize) -> Result<LaneWork<'a>, NoMemory>
        ensures answers { IfOk result (λ work. work.answers ≡ []) }
        ensures log { IfOk result (λ work. (work.log.noted ≡ []) × (work.log.room ≡ lines)) }
        ensures counts { IfOk result (λ work.
            work.counts.items ≡ replicate indexes (counts_of [])) }
    {
        let answers = Texts::reserve(alloc, lines)?;
        let log = LaneLog::reserve(alloc, lines)?;
        let counts = no_counts(alloc, indexes)?;
        Ok(LaneWork {
            answers,
            log,
            counts,
        })
    }

    /// Adds what a line was told: its answer is printed, its columns are counted, and its change is
    /// noted, if it made one.
    fn add(&mut self, lane: u32, line: &'a Line, told: &Told, row: &RowBuf) -> Result<(), NoMemory>
        requires answer { IsSome (answer_of (line_text line.now).op.ask told.now row.now) }
        requires index { (line_text line.now).op.index < length self.old.counts.items }
        requires room { length self.old.log.noted < self.old.log.room }
        ensures { OnOk result (AddsLine self.old self.new lane line.now told.now row.now) }
    {
        self.answers.add_answer(line.line, told, row, &line.op)?;
        count_told(
            &mut self.counts[line.op.index() as usize],
            told.how,
            told.note,
        )?;
        note(&mut self.log, lane, line, told);
        Ok(())
    }
}

/// Works the lines of a lane, which has this number from 1, one after another. The gate is asked
/// before each. The engine has so many indexes.
pub(crate) fn work_lane<'a, R: Wait, G: Gate>(
    alloc: Global,
    engine: &Engine,
    pass: &mut EnginePass,
    lane: u32,
    indexes: usize,
    lines: &'a [Line],
    wait: &R,
    gate: &G,
) -> Result<LaneWork<'a>, NoMemory>
    requires own { IsOf engine.now pass.old }
    requires lane { lane ≡ (known pass.old).low + 1 }
    requires indexes { indexes ≡ indexes_of engine.now }
    requires lines { AreWorkable engine.now lines.now }
    ensures own { IsSame pass.old pass.new × IsOf engine.now pass.new }
    ensures ok { IfOk result (λ work. Works pass.old pass.new (line_texts lines.now) work.answers
        work.log work.counts.items) }
{
    let mut row = RowBuf::new(alloc)?;
    let mut work = LaneWork::reserve(alloc, lines.len(), indexes)?;
    for line in lines {
        gate.before(lane, line.line);
        let told = work_line(engine, pass, line, &mut row, wait)?;
        work.add(lane, line, &told, &row)?;
    }
    Ok(work)
}

/// Notes the change of a line, if it made one.
fn note<'a>(log: &mut LaneLog<'a>, lane: u32, line: &'a Line, told: &Told)
    requires room { length log.old.noted < log.old.room }
    ensures noted { NotesLine log.old log.new lane line.now told.now }
    ensures room { log.new.room ≡ log.old.room }
{
    if let (Reply::Ok, Some(number)) = (told.reply, told.point) {
        log.note(LaneChange { number, lane, line });
    }
}

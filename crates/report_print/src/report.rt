//! A whole report.
ghost use Rattle.std.specs.Prelude.{◌≡◌, map, length, string_bytes};
ghost use Rattle.change_log.specs.Merge.{note_lists};
ghost use Rattle.report_print.specs.Prints.{PrintsTo};
ghost use Rattle.report_print.specs.Texts.{first_line, end_line, report_text_of};

use crate::halt::Halt;
use crate::indexes::put_indexes;
use crate::lanes::put_lanes;
use crate::line::put_line;
use crate::statistics::put_statistics;
use change_log::LaneChange;
use io_port::Sink;
use map_history::Counts;
use report_text::Texts;
use std::alloc::Global;

/// Puts the report of some lanes over indexes of these names, line by line: the answers of each
/// lane, then the changes of each index, then the counts of each.
pub fn put_report<K: Sink>(
    alloc: Global,
    sink: &mut K,
    names: &[String],
    answers: &[Texts],
    changes: &[Vec<LaneChange<'_>>],
    counts: &[Counts],
) -> Result<(), Halt>
    requires changes { length changes.now ≡ length names.now }
    requires counts { length counts.now ≡ length names.now }
    ensures { PrintsTo K.Sink sink.old sink.new (report_text_of (map string_bytes names.now)
        answers.now (note_lists changes.now) counts.now) result }
{
    let mut line = Vec::new(alloc);
    put_first_line(sink, &mut line)?;
    put_lanes(sink, &mut line, answers)?;
    put_indexes(sink, &mut line, names, changes)?;
    put_statistics(sink, &mut line, names, counts)?;
    put_end(sink, &mut line)
}

fn put_first_line<K: Sink>(sink: &mut K, line: &mut Vec<u8>) -> Result<(), Halt>
    ensures { PrintsTo K.Sink sink.old sink.new first_line result }
{
    line.clear();
    report_text::report_head(line)?;
    put_line(sink, line)
}

fn put_end<K: Sink>(sink: &mut K, line: &mut Vec<u8>) -> Result<(), Halt>
    ensures { PrintsTo K.Sink sink.old sink.new end_line result }
{
    line.clear();
    report_text::report_end(line)?;
    put_line(sink, line)
}

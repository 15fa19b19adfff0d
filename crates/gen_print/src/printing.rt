//! The whole text.
ghost use Rattle.report_print.specs.Prints.{PrintsTo};
ghost use Rattle.report_print.specs.Texts.{end_line};
ghost use Rattle.gen_print.specs.Texts.{gen_line, gen_text, rows_line};

use crate::lanes::put_lanes;
use io_port::Sink;
use key_tuple::Blank;
use reply_counts::ReplyCounts;
use report_print::{Halt, put_line};
use report_text::{Word, report_end};
use std::alloc::Global;

/// What came of generated lanes.
#[derive(Clone, Copy)]
pub struct Generated<'a> {
    /// The number that their lines are drawn from.
    pub number: u64,
    /// How many lines each lane has.
    pub lines: u64,
    /// How many answers of each lane have each reply.
    pub replies: &'a [ReplyCounts],
    /// How many rows there are in the end.
    pub rows: u64,
    /// How many changes were made.
    pub changes: u64,
}

/// Puts what came of generated lanes, line by line: the command, the replies of each lane, the rows
/// and the changes, and the end.
pub fn put_generated<K: Sink>(
    alloc: Global,
    sink: &mut K,
    generated: &Generated<'_>,
) -> Result<(), Halt>
    ensures { PrintsTo K.Sink sink.old sink.new (gen_text generated.now) result }
{
    let mut line = Vec::new(alloc);
    put_first_line(sink, &mut line, generated)?;
    put_lanes(sink, &mut line, generated.replies)?;
    put_rows(sink, &mut line, generated)?;
    put_end(sink, &mut line)
}

fn put_first_line<K: Sink>(
    sink: &mut K,
    line: &mut Vec<u8>,
    generated: &Generated<'_>,
) -> Result<(), Halt>
    ensures { PrintsTo K.Sink sink.old sink.new (gen_line generated.now) result }
{
    line.clear();
    report_text::put_line::<Blank>(
        line,
        &[
            Word::Text("ahi"),
            Word::Text("gen"),
            Word::Number(generated.number),
            Word::Number(generated.replies.len() as u64),
            Word::Number(generated.lines),
        ],
    )?;
    put_line(sink, line)
}

fn put_rows<K: Sink>(
    sink: &mut K,
    line: &mut Vec<u8>,
    generated: &Generated<'_>,
) -> Result<(), Halt>
    ensures { PrintsTo K.Sink sink.old sink.new (rows_line generated.now) result }
{
    line.clear();
    report_text::put_line::<Blank>(
        line,
        &[
            Word::Text("rows"),
            Word::Number(generated.rows),
            Word::Text("changes"),
            Word::Number(generated.changes),
        ],
    )?;
    put_line(sink, line)
}

fn put_end<K: Sink>(sink: &mut K, line: &mut Vec<u8>) -> Result<(), Halt>
    ensures { PrintsTo K.Sink sink.old sink.new end_line result }
{
    line.clear();
    report_end(line)?;
    put_line(sink, line)
}

//! The answers of the lanes.
ghost use Rattle.std.specs.List.{concat};
ghost use Rattle.report_print.specs.Prints.{PrintsTo};
ghost use Rattle.report_print.specs.Texts.{lane_line, lane_answers, lanes_text};

use crate::halt::Halt;
use crate::line::put_line;
use io_port::Sink;
use report_text::Texts;

/// Puts the answers of all lanes, which are numbered from 1.
pub fn put_lanes<K: Sink>(sink: &mut K, line: &mut Vec<u8>, answers: &[Texts]) -> Result<(), Halt>
    ensures { PrintsTo K.Sink sink.old sink.new (lanes_text answers.now) result }
{
    for (i, texts) in answers.iter().enumerate() {
        put_lane(sink, line, i as u64 + 1, texts)?;
    }
    Ok(())
}

fn put_lane<K: Sink>(
    sink: &mut K,
    line: &mut Vec<u8>,
    number: u64,
    answers: &Texts,
) -> Result<(), Halt>
    ensures { PrintsTo K.Sink sink.old sink.new (lane_answers (number, answers.now)) result }
{
    put_lane_line(sink, line, number)?;
    put_answers(sink, answers)
}

fn put_lane_line<K: Sink>(sink: &mut K, line: &mut Vec<u8>, number: u64) -> Result<(), Halt>
    ensures { PrintsTo K.Sink sink.old sink.new (lane_line number) result }
{
    line.clear();
    report_text::lane_head(line, number)?;
    put_line(sink, line)
}

/// Puts each answer as it stands.
fn put_answers<K: Sink>(sink: &mut K, answers: &Texts) -> Result<(), Halt>
    ensures { PrintsTo K.Sink sink.old sink.new (concat answers.now) result }
{
    for i in 0..answers.count() {
        put_line(sink, answers.text(i))?;
    }
    Ok(())
}

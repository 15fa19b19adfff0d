//! The replies of the lanes.
ghost use Rattle.std.specs.List.{flat_map, enumerate_from};
ghost use Rattle.report_print.specs.Prints.{PrintsTo};
ghost use Rattle.gen_print.specs.Texts.{replies_line};

use io_port::Sink;
use key_tuple::Blank;
use reply_counts::ReplyCounts;
use report_print::{Halt, put_line};
use report_text::Word;

/// Puts the replies of all lanes, which are numbered from 1.
pub(crate) fn put_lanes<K: Sink>(
    sink: &mut K,
    line: &mut Vec<u8>,
    replies: &[ReplyCounts],
) -> Result<(), Halt>
    ensures { PrintsTo K.Sink sink.old sink.new
        (flat_map replies_line (enumerate_from 1 replies.now)) result }
{
    for (i, counts) in replies.iter().enumerate() {
        put_lane(sink, line, i as u64 + 1, counts)?;
    }
    Ok(())
}

fn put_lane<K: Sink>(
    sink: &mut K,
    line: &mut Vec<u8>,
    number: u64,
    counts: &ReplyCounts,
) -> Result<(), Halt>
    ensures { PrintsTo K.Sink sink.old sink.new (replies_line (number, counts.now)) result }
{
    line.clear();
    report_text::put_line::<Blank>(
        line,
        &[
            Word::Text("lane"),
            Word::Number(number),
            Word::Text("ok"),
            Word::Number(counts.ok),
            Word::Text("found"),
            Word::Number(counts.found),
            Word::Text("absent"),
            Word::Number(counts.absent),
            Word::Text("duplicate"),
            Word::Number(counts.duplicate),
        ],
    )?;
    put_line(sink, line)
}

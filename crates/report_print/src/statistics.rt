//! The statistics of the indexes.
ghost use Rattle.std.specs.Prelude.{◌≡◌, map, length, string_bytes};
ghost use Rattle.report_print.specs.Prints.{PrintsTo};
ghost use Rattle.report_print.specs.Texts.{index_stats, statistics_text};

use crate::halt::Halt;
use crate::line::put_line;
use io_port::Sink;
use map_history::Counts;

/// Puts the statistics of all indexes, of which there is a name and counts each.
pub fn put_statistics<K: Sink>(
    sink: &mut K,
    line: &mut Vec<u8>,
    names: &[String],
    counts: &[Counts],
) -> Result<(), Halt>
    requires { length counts.now ≡ length names.now }
    ensures { PrintsTo K.Sink sink.old sink.new
        (statistics_text (map string_bytes names.now) counts.now) result }
{
    for (i, name) in names.iter().enumerate() {
        put_stats(sink, line, name.as_str(), &counts[i])?;
    }
    Ok(())
}

fn put_stats<K: Sink>(
    sink: &mut K,
    line: &mut Vec<u8>,
    name: &str,
    counts: &Counts,
) -> Result<(), Halt>
    ensures { PrintsTo K.Sink sink.old sink.new (index_stats (name.now, counts.now)) result }
{
    line.clear();
    report_text::stats(line, name, counts)?;
    put_line(sink, line)
}

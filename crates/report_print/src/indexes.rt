//! The changes of the indexes.
ghost use Rattle.std.specs.Prelude.{◌≡◌, map, length, string_bytes};
ghost use Rattle.std.specs.List.{flat_map};
ghost use Rattle.change_log.specs.Log.{note_of};
ghost use Rattle.change_log.specs.Merge.{note_lists};
ghost use Rattle.report_text.specs.Printed.{noted_text};
ghost use Rattle.report_print.specs.Prints.{PrintsTo};
ghost use Rattle.report_print.specs.Texts.{changes_line, index_text, indexes_text};

use crate::halt::Halt;
use crate::line::put_line;
use change_log::LaneChange;
use io_port::Sink;

/// Puts the changes of all indexes, of which there is a name and a list each.
pub fn put_indexes<K: Sink>(
    sink: &mut K,
    line: &mut Vec<u8>,
    names: &[String],
    changes: &[Vec<LaneChange<'_>>],
) -> Result<(), Halt>
    requires { length changes.now ≡ length names.now }
    ensures { PrintsTo K.Sink sink.old sink.new
        (indexes_text (map string_bytes names.now) (note_lists changes.now)) result }
{
    for (i, name) in names.iter().enumerate() {
        put_index(sink, line, name.as_str(), &changes[i])?;
    }
    Ok(())
}

fn put_index<K: Sink>(
    sink: &mut K,
    line: &mut Vec<u8>,
    name: &str,
    changes: &[LaneChange<'_>],
) -> Result<(), Halt>
    ensures { PrintsTo K.Sink sink.old sink.new
        (index_text (name.now, map note_of changes.now)) result }
{
    put_changes_line(sink, line, name, changes.len() as u64)?;
    put_changes(sink, line, changes)
}

fn put_changes_line<K: Sink>(
    sink: &mut K,
    line: &mut Vec<u8>,
    name: &str,
    count: u64,
) -> Result<(), Halt>
    ensures { PrintsTo K.Sink sink.old sink.new (changes_line name.now count) result }
{
    line.clear();
    report_text::changes_head(line, name, count)?;
    put_line(sink, line)
}

/// Puts the changes of an index, in their order.
fn put_changes<K: Sink>(
    sink: &mut K,
    line: &mut Vec<u8>,
    changes: &[LaneChange<'_>],
) -> Result<(), Halt>
    ensures { PrintsTo K.Sink sink.old sink.new
        (flat_map noted_text (map note_of changes.now)) result }
{
    for change in changes {
        put_change(sink, line, change)?;
    }
    Ok(())
}

fn put_change<K: Sink>(
    sink: &mut K,
    line: &mut Vec<u8>,
    change: &LaneChange<'_>,
) -> Result<(), Halt>
    ensures { PrintsTo K.Sink sink.old sink.new (noted_text (note_of change.now)) result }
{
    line.clear();
    report_text::change(line, change)?;
    put_line(sink, line)
}

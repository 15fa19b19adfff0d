//! The changes of the indexes.
ghost use Rattle.std.specs.Prelude.{◌≡◌, map, length, string_bytes};
ghost use Rattle.std.specs.List.{All, zip};
ghost use Rattle.report_forms.specs.Entries as entries;
ghost use Rattle.report_forms.specs.Lists.{read_each, numbers_from};
ghost use Rattle.report_reading.specs.Entries.{entry_seen, entries_seen, read_part};
ghost use Rattle.report_reading.specs.Reads.{Reads};
ghost use Rattle.script.specs.Schema.{IsFieldCount};

use crate::count_line::CountLine;
use crate::entry_line::{EntryLine, ReadEntry};
use crate::kind::read_kind;
use crate::misread::Misread;
use crate::text::ReportText;
use std::alloc::Global;

/// The changes of each index, by its name and the number of its fields.
pub fn read_parts(
    alloc: Global,
    names: &[String],
    fields: &[u8],
    text: &mut ReportText<'_>,
) -> Result<Vec<Vec<ReadEntry>>, Misread>
    requires paired { length fields.now ≡ length names.now }
    requires fields { All IsFieldCount fields.now }
    ensures { Reads (λ parts. map entries_seen parts.items) result text.new
        (read_each read_part (zip (map string_bytes names.now) fields.now) text.old) }
{
    let mut parts = Vec::new(alloc);
    for index in 0..names.len() {
        let part = read_entries(alloc, fields[index], names[index].as_str(), text)?;
        parts.push(part)?;
    }
    Ok(parts)
}

/// The changes of an index of this name.
fn read_entries(
    alloc: Global,
    fields: u8,
    name: &str,
    text: &mut ReportText<'_>,
) -> Result<Vec<ReadEntry>, Misread>
    requires { IsFieldCount fields }
    ensures { Reads entries_seen result text.new
        (entries.read_entries fields name.now text.old) }
{
    let kind = CountLine { name };
    let count = read_kind(alloc, &kind, text)?;
    let entries = take_entries(alloc, fields, count, text)?;
    Ok(entries)
}

/// So many changes.
fn take_entries(
    alloc: Global,
    fields: u8,
    count: u64,
    text: &mut ReportText<'_>,
) -> Result<Vec<ReadEntry>, Misread>
    requires { IsFieldCount fields }
    ensures { Reads entries_seen result text.new
        (read_each (entries.read_entry fields) (numbers_from 1 count) text.old) }
{
    let mut entries = Vec::new(alloc);
    for done in 0..count {
        let kind = EntryLine {
            fields,
            number: done + 1,
        };
        let entry = read_kind(alloc, &kind, text)?;
        entries.push(entry)?;
    }
    Ok(entries)
}

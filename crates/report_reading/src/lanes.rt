//! The answers of the lanes.
ghost use Rattle.std.specs.Prelude.{◌≡◌, ◌<◌, ◌^◌, map, length};
ghost use Rattle.std.specs.List.{All, enumerate_from};
ghost use Rattle.map_history.specs.Lines.{line_text, line_texts};
ghost use Rattle.report_forms.specs.Lists.{read_each};
ghost use Rattle.report_forms.specs.Reports as reports;
ghost use Rattle.report_reading.specs.Reads.{Reads};
ghost use Rattle.report_reading.specs.Told.{line_seen, lines_seen, lane_asked, AsksKnown, AskKnown};
ghost use Rattle.script.specs.Schema.{IsFieldCount};

use crate::misread::Misread;
use crate::text::ReportText;
use crate::told::{ReadLine, read_told};
use report_text::lane_head;
use script::Line;
use std::alloc::Global;

/// The answers of each lane, whose lines ask indexes whose keys have so many fields.
pub fn read_lanes(
    alloc: Global,
    fields: &[u8],
    lanes: &[Vec<Line>],
    text: &mut ReportText<'_>,
) -> Result<Vec<Vec<ReadLine>>, Misread>
    requires fields { All IsFieldCount fields.now }
    requires known { All (AskKnown (length fields.now)) lanes.now }
    requires few { length lanes.now < 2 ^ 32 }
    ensures { Reads (λ told. map lines_seen told.items) result text.new
        (read_each (reports.read_lane fields.now)
        (enumerate_from 0 (map lane_asked lanes.now)) text.old) }
{
    let mut told = Vec::new(alloc);
    for lane in 0..lanes.len() {
        let lines = read_lane(alloc, fields, lane as u64, &lanes[lane], text)?;
        told.push(lines)?;
    }
    Ok(told)
}

/// The answers of the lane with this number, from 0.
fn read_lane(
    alloc: Global,
    fields: &[u8],
    number: u64,
    lines: &[Line],
    text: &mut ReportText<'_>,
) -> Result<Vec<ReadLine>, Misread>
    requires fields { All IsFieldCount fields.now }
    requires known { All (AsksKnown (length fields.now)) lines.now }
    requires small { number < 2 ^ 32 }
    ensures { Reads lines_seen result text.new
        (reports.read_lane fields.now (number, line_texts lines.now) text.old) }
{
    let mut head = Vec::new(alloc);
    lane_head(&mut head, number + 1)?;
    text.expect_line(&head)?;
    let told = read_lines(alloc, fields, lines, text)?;
    Ok(told)
}

/// What each line was answered.
fn read_lines(
    alloc: Global,
    fields: &[u8],
    lines: &[Line],
    text: &mut ReportText<'_>,
) -> Result<Vec<ReadLine>, Misread>
    requires fields { All IsFieldCount fields.now }
    requires known { All (AsksKnown (length fields.now)) lines.now }
    ensures { Reads lines_seen result text.new
        (read_each (reports.read_told fields.now) (line_texts lines.now) text.old) }
{
    let mut told = Vec::new(alloc);
    for place in 0..lines.len() {
        let line = &lines[place];
        let count = fields_of(fields, line);
        let answer = read_told(alloc, count, line, text)?;
        told.push(answer)?;
    }
    Ok(told)
}

/// How many fields the keys of the index of a line have.
fn fields_of(fields: &[u8], line: &Line) -> u8
    requires fields { All IsFieldCount fields.now }
    requires known { AsksKnown (length fields.now) line.now }
    ensures count { result ≡ reports.fields_of fields.now (line_text line.now) }
    ensures some { IsFieldCount result }
{
    fields[line.op.index() as usize]
}

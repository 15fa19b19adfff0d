//! A whole report.
ghost use Rattle.std.specs.Prelude.{◌≡◌, ◌+◌, ◌-◌, ◌<◌, ◌^◌, length};
ghost use Rattle.std.specs.List.{All};
ghost use Rattle.audit_law.specs.TextLines.{ended_lines};
ghost use Rattle.line_forms.specs.LineForms.{read_whole};
ghost use Rattle.report_forms.specs.Reports as reports;
ghost use Rattle.report_forms.specs.Reports.{IsReadRun};
ghost use Rattle.report_reading.specs.Reads.{Reads};
ghost use Rattle.report_reading.specs.Report.{IsJudged, ReadsWhole, report_seen, run_asked};
ghost use Rattle.report_reading.specs.Told.{AskKnown};

use crate::counts::count_lanes;
use crate::entries::read_parts;
use crate::entry_line::ReadEntry;
use crate::lanes::read_lanes;
use crate::misread::Misread;
use crate::stats::{expect_end, expect_head, expect_stats};
use crate::text::ReportText;
use crate::told::ReadLine;
use script::{Line, Schema};
use std::alloc::Global;

/// What a report says: what the lines of each lane were answered, and the changes of each index. Its
/// statistics are those that the answers tell.
#[derive(Drop)]
pub struct ReadReport {
    pub lanes: Vec<Vec<ReadLine>>,
    pub parts: Vec<Vec<ReadEntry>>,
}

/// Why a report isn't read.
#[derive(Debug, Clone, Copy, PartialEq, Eq)]
pub enum ReportError {
    /// The first line at which no report of the run can stand, from 1; where lines are missing, it is
    /// the one behind the last.
    BadLine { line: u32 },
    /// There was no memory.
    NoMemory,
}

/// The report of a run of these lanes that some bytes are.
pub fn read_report(
    alloc: Global,
    schema: &Schema,
    lanes: &[Vec<Line>],
    report: &[u8],
) -> Result<ReadReport, ReportError>
    requires known { All (AskKnown (length schema.now.fields.items)) lanes.now }
    requires few { length lanes.now < 2 ^ 32 }
    requires short { length report.now + 1 < 2 ^ 32 }
    // What is read is the report, and the line that is told is the first at which none can stand.
    ensures judged { IsReadRun (run_asked schema.now lanes.now) schema.now.fields.items
        → IsJudged (run_asked schema.now lanes.now) schema.now.fields.items report.now result }
    ensures exact { ReadsWhole (run_asked schema.now lanes.now) result (ended_lines report.now)
        (read_whole (reports.read_report (run_asked schema.now lanes.now) schema.now.fields.items
        (ended_lines report.now))) }
{
    read_bytes(alloc, schema, lanes, report)
}

fn read_bytes(
    alloc: Global,
    schema: &Schema,
    lanes: &[Vec<Line>],
    report: &[u8],
) -> Result<ReadReport, ReportError>
    requires known { All (AskKnown (length schema.now.fields.items)) lanes.now }
    requires few { length lanes.now < 2 ^ 32 }
    requires short { length report.now + 1 < 2 ^ 32 }
    ensures { ReadsWhole (run_asked schema.now lanes.now) result (ended_lines report.now)
        (read_whole (reports.read_report (run_asked schema.now lanes.now) schema.now.fields.items
        (ended_lines report.now))) }
{
    let mut text = ReportText::new(report);
    match read_all(alloc, schema, lanes, &mut text) {
        Ok(read) if text.count() == 0 => Ok(read),
        Err(Misread::NoMemory) => Err(ReportError::NoMemory),
        _ => Err(ReportError::BadLine {
            line: line_before(report, text.count()),
        }),
    }
}

/// The number of the line behind which so many are left, but for one.
fn line_before(report: &[u8], left: usize) -> u32
    requires { length report.now + 1 < 2 ^ 32 }
    ensures { result ≡ length (ended_lines report.now) - left + 1 }
{
    ReportText::new(report).count().saturating_sub(left) as u32 + 1
}

/// All lines of a report; more may be left.
fn read_all(
    alloc: Global,
    schema: &Schema,
    lanes: &[Vec<Line>],
    text: &mut ReportText<'_>,
) -> Result<ReadReport, Misread>
    requires known { All (AskKnown (length schema.now.fields.items)) lanes.now }
    requires few { length lanes.now < 2 ^ 32 }
    ensures { Reads (report_seen (run_asked schema.now lanes.now)) result text.new
        (reports.read_report (run_asked schema.now lanes.now) schema.now.fields.items text.old) }
{
    expect_head(alloc, text)?;
    let told = read_lanes(alloc, &schema.fields, lanes, text)?;
    let parts = read_parts(alloc, &schema.names, &schema.fields, text)?;
    let counts = count_lanes(alloc, schema.names.len(), lanes, &told)?;
    expect_stats(alloc, &schema.names, &counts, text)?;
    expect_end(alloc, text)?;
    Ok(ReadReport { lanes: told, parts })
}

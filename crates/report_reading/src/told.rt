//! What a line was answered.
ghost use Rattle.std.specs.Prelude.{◌≡◌};
ghost use Rattle.line_forms.specs.LineForms.{read_as};
ghost use Rattle.map_history.specs.Operation.{operation_of, is_scan};
ghost use Rattle.report_forms.specs.Reports as reports;
ghost use Rattle.report_reading.specs.Reads.{Reads};
ghost use Rattle.report_reading.specs.Told.{told_seen, line_seen, answer_to};
ghost use Rattle.script.specs.Schema.{IsFieldCount};

use crate::answer_line::{AnswerLine, ReadAnswer};
use crate::kind::read_kind;
use crate::misread::Misread;
use crate::pieces::{ReadPiece, read_scan};
use crate::text::ReportText;
use map_history::Op;
use script::Line;
use std::alloc::Global;

/// An answer in one line, or in pieces.
#[derive(Drop)]
pub enum ReadTold {
    Plain(ReadAnswer),
    Pieces(Vec<ReadPiece>),
}

/// An answer, and the number of the line that it answers.
#[derive(Drop)]
pub struct ReadLine {
    pub line: u32,
    pub told: ReadTold,
}

/// The answer to a line, which asks an index whose keys have so many fields.
pub fn read_told(
    alloc: Global,
    fields: u8,
    line: &Line,
    text: &mut ReportText<'_>,
) -> Result<ReadLine, Misread>
    requires { IsFieldCount fields }
    ensures { Reads line_seen result text.new (read_as (answer_to line.now.line)
        (reports.read_asked fields line.now.line (operation_of line.now.op).ask text.old)) }
{
    let told = read_asked(alloc, fields, u64::from(line.line), &line.op, text)?;
    Ok(ReadLine {
        line: line.line,
        told,
    })
}

/// What is answered to an operation on the line with this number.
fn read_asked(
    alloc: Global,
    fields: u8,
    number: u64,
    op: &Op,
    text: &mut ReportText<'_>,
) -> Result<ReadTold, Misread>
    requires { IsFieldCount fields }
    ensures { Reads told_seen result text.new
        (reports.read_asked fields number (operation_of op.now).ask text.old) }
{
    if is_scan(op) {
        let pieces = read_scan(alloc, fields, number, text)?;
        return Ok(ReadTold::Pieces(pieces));
    }
    let kind = AnswerLine { fields, number, op };
    let answer = read_kind(alloc, &kind, text)?;
    Ok(ReadTold::Plain(answer))
}

fn is_scan(op: &Op) -> bool
    ensures { result ≡ is_scan (operation_of op.now).ask }
{
    matches!(op, Op::Scan { .. })
}

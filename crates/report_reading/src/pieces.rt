//! The answer to a scan: its pieces, with their rows.
ghost use Rattle.std.specs.Prelude.{map, false};
ghost use Rattle.map_history.specs.Report.{Scanned};
ghost use Rattle.report_forms.specs.Lists.{read_each, numbers_from};
ghost use Rattle.report_forms.specs.Scans as scans;
ghost use Rattle.report_reading.specs.Pieces.{piece_seen, turn_seen};
ghost use Rattle.report_reading.specs.Reads.{Reads};
ghost use Rattle.script.specs.Schema.{IsFieldCount};

use crate::columns::ReadColumns;
use crate::kind::read_kind;
use crate::misread::Misread;
use crate::row_line::RowLine;
use crate::scan_line::{ScanLine, Turn};
use crate::text::ReportText;
use map_history::Rows;
use std::alloc::Global;

/// A piece of a scan: its point, its rows, and its columns.
#[derive(Drop)]
pub struct ReadPiece {
    pub point: u64,
    pub rows: Rows,
    pub columns: ReadColumns,
}

/// The pieces that a scan on the line with this number was answered in.
pub fn read_scan(
    alloc: Global,
    fields: u8,
    number: u64,
    text: &mut ReportText<'_>,
) -> Result<Vec<ReadPiece>, Misread>
    requires { IsFieldCount fields }
    ensures { Reads (λ pieces. Scanned (map piece_seen pieces.items)) result text.new
        (scans.read_scan fields number text.old) }
{
    let (pieces, rows) = read_kind(alloc, &ScanLine { number }, text)?;
    let pieces = read_pieces(alloc, fields, pieces, rows, text)?;
    Ok(pieces)
}

/// So many pieces, of so many rows together.
fn read_pieces(
    alloc: Global,
    fields: u8,
    count: u64,
    rows: u64,
    text: &mut ReportText<'_>,
) -> Result<Vec<ReadPiece>, Misread>
    requires { IsFieldCount fields }
    ensures { Reads (λ pieces. map piece_seen pieces.items) result text.new
        (scans.read_pieces fields false rows count text.old) }
{
    let mut pieces = Vec::new(alloc);
    let mut is_later = false;
    let mut left = rows;
    for done in 0..count {
        let behind = count - done - 1;
        let turn = Turn {
            is_later,
            behind,
            left,
        };
        let piece = read_piece(alloc, fields, turn, text)?;
        is_later = true;
        left = left.saturating_sub(piece.rows.count() as u64);
        pieces.push(piece)?;
    }
    Ok(pieces)
}

fn read_piece(
    alloc: Global,
    fields: u8,
    turn: Turn,
    text: &mut ReportText<'_>,
) -> Result<ReadPiece, Misread>
    requires { IsFieldCount fields }
    ensures { Reads piece_seen result text.new
        (scans.read_piece fields (turn_seen turn) text.old) }
{
    let head = read_kind(alloc, &turn, text)?;
    let rows = read_rows(alloc, fields, head.count, text)?;
    Ok(ReadPiece {
        point: head.point,
        rows,
        columns: head.columns,
    })
}

/// So many rows.
fn read_rows(
    alloc: Global,
    fields: u8,
    count: u64,
    text: &mut ReportText<'_>,
) -> Result<Rows, Misread>
    requires { IsFieldCount fields }
    ensures { Reads (λ rows. rows) result text.new
        (read_each (λ _. scans.read_row fields) (numbers_from 0 count) text.old) }
{
    let mut rows = Rows::new(alloc);
    for _ in 0..count {
        let (key, value) = read_kind(alloc, &RowLine { fields }, text)?;
        rows.push(&key, value.as_bytes())?;
    }
    Ok(rows)
}

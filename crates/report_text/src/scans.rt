//! The lines of a scan: its own, and those of its pieces and of their rows.
ghost use Rattle.std.specs.Prelude.{◌≡◌, ◌++◌, ◌+◌, ◌≤◌, length, take, drop, sum_by, OnOk, OnErr};
ghost use Rattle.map_history.specs.declared.reply.Piece.{Piece};
ghost use Rattle.map_history.specs.Report.{Scanned};
ghost use Rattle.map_history.specs.Spelling.{answer_text, piece_lines, row_line};
ghost use Rattle.scan_law.specs.ScanPieces.{piece_with, scan_pieces};
ghost use Rattle.report_text.specs.Line.{KeepsBytes};
ghost use Rattle.report_text.specs.Scans.{scan_line, piece_line};

use crate::line::put_line;
use crate::word::Word;
use key_tuple::{Blank, Fields, NoMemory};
use map_history::{Piece, Rows};

/// Appends the lines of a scan's answer: its own, and those of its pieces, each with the next rows, as
/// many as it has. The pieces have all of the rows together.
pub fn scan_answer(
    out: &mut Vec<u8>,
    line: u32,
    pieces: &[Piece],
    rows: &Rows,
) -> Result<(), NoMemory>
    requires { sum_by (λ (p : Piece). p.count) pieces.now ≡ length rows.now }
    ensures ok { OnOk result (out.new.items
        ≡ out.old.items ++ answer_text line (Scanned (scan_pieces pieces.now rows.now))) }
    ensures err { OnErr result (out.new.items ≡ out.old.items) }
{
    let start = out.len();
    match put_scan(out, line, pieces, rows) {
        Ok(()) => Ok(()),
        Err(_) => {
            out.truncate(start);
            Err(NoMemory)
        }
    }
}

/// The same, but that after an error some of the lines may be there.
fn put_scan(out: &mut Vec<u8>, line: u32, pieces: &[Piece], rows: &Rows) -> Result<(), NoMemory>
    requires { sum_by (λ (p : Piece). p.count) pieces.now ≡ length rows.now }
    ensures ok { OnOk result (out.new.items
        ≡ out.old.items ++ answer_text line (Scanned (scan_pieces pieces.now rows.now))) }
    ensures err { OnErr result (KeepsBytes out.old.items out.new.items) }
{
    scan_head(out, line, pieces.len() as u64, rows.count() as u64)?;
    let mut next = 0;
    for piece in pieces {
        let end = next + piece.count as usize;
        put_piece(out, piece, rows, next, end)?;
        next = end;
    }
    Ok(())
}

/// Appends the lines of a piece with its rows, which are those from one number up to another.
fn put_piece(
    out: &mut Vec<u8>,
    piece: &Piece,
    rows: &Rows,
    first: usize,
    end: usize,
) -> Result<(), NoMemory>
    requires counted { end ≡ first + piece.now.count }
    requires within { end ≤ length rows.now }
    ensures ok { OnOk result (out.new.items ≡ out.old.items
        ++ piece_lines (piece_with piece.now (take piece.now.count (drop first rows.now)))) }
    ensures err { OnErr result (KeepsBytes out.old.items out.new.items) }
{
    piece_head(out, piece)?;
    for place in first..end {
        let row = rows.row(place);
        scan_row(out, &row, row.value())?;
    }
    Ok(())
}

/// Appends a scan's own line: how many pieces and rows it has.
pub fn scan_head(out: &mut Vec<u8>, line: u32, pieces: u64, rows: u64) -> Result<(), NoMemory>
    ensures ok { OnOk result (out.new.items ≡ out.old.items ++ scan_line line pieces rows) }
    ensures err { OnErr result (out.new.items ≡ out.old.items) }
{
    put_line::<Blank>(
        out,
        &[
            Word::Number(u64::from(line)),
            Word::Text("scan"),
            Word::Number(pieces),
            Word::Number(rows),
        ],
    )
}

/// Appends the line of a piece: its point, how many rows it has, and its columns.
pub fn piece_head(out: &mut Vec<u8>, piece: &Piece) -> Result<(), NoMemory>
    ensures ok { OnOk result (out.new.items ≡ out.old.items ++ piece_line piece.now) }
    ensures err { OnErr result (out.new.items ≡ out.old.items) }
{
    put_line::<Blank>(
        out,
        &[
            Word::Text("piece"),
            Word::Point(piece.point),
            Word::Number(u64::from(piece.count)),
            Word::Text(piece.how.text()),
            Word::Text(piece.note.text()),
        ],
    )
}

/// Appends the line of a row of a piece.
pub fn scan_row<'a, K: Fields>(
    out: &mut Vec<u8>,
    row: &'a K,
    value: &'a [u8],
) -> Result<(), NoMemory>
    ensures ok { OnOk result (out.new.items ≡ out.old.items
        ++ row_line (record { key = K.fields_of row.now; value = value.now })) }
    ensures err { OnErr result (out.new.items ≡ out.old.items) }
{
    put_line(
        out,
        &[Word::Text("row"), Word::Key(row), Word::Value(value)],
    )
}

//! The line of a scan's answer, and that of a piece.
ghost use Rattle.std.specs.Prelude.{◌≡◌, option_map};
ghost use Rattle.report_forms.specs.Scans.{scan_told, are_counts, piece_head_told, is_piece_head};
ghost use Rattle.report_reading.specs.Pieces.{head_seen, turn_seen, has_small_numbers, takes_turn};
ghost use Rattle.report_reading.specs.Reads.{Tells, passing};
ghost use Rattle.script.specs.Pieces.{pieces_left};

use crate::columns::{ReadColumns, columns_in, may_stand, may_stand_later};
use crate::digits::{find_digits, find_point};
use crate::kind::LineKind;
use crate::misread::Misread;
use key_tuple::{Blank, NoMemory};
use report_text::{Word, put_line};
use script::{Pieces, two_words};
use std::alloc::Global;

/// The first line of a scan's answer on the line with this number: how many pieces and rows.
#[derive(Drop)]
pub struct ScanLine {
    pub number: u64,
}

impl LineKind for ScanLine {
    ghost use Rattle.std.specs.Prelude.{ℕ};
    ghost use Rattle.report_forms.specs.Scans.{scan_told, scan_text, are_counts};

    type Read = (u64, u64);

    ghost Seen = { ℕ × ℕ };

    ghost view = { λ counts. counts };

    ghost told = { scan_told };

    ghost passes = { λ _. are_counts };

    ghost text = { λ kind. scan_text kind.number };

    ghost can_tell = { λ _. Unit {0} };

    fn tell(&self, _alloc: Global, words: Pieces<'_>) -> Result<(u64, u64), Misread> {
        tell_counts(words)
    }

    fn put(&self, out: &mut Vec<u8>, read: &(u64, u64)) -> Result<(), NoMemory> {
        put_line::<Blank>(
            out,
            &[
                Word::Number(self.number),
                Word::Text("scan"),
                Word::Number(read.0),
                Word::Number(read.1),
            ],
        )
    }
}

fn tell_counts(mut words: Pieces<'_>) -> Result<(u64, u64), Misread>
    ensures { Tells (λ counts. counts) result (passing are_counts
        (scan_told (pieces_left words.entry))) }
{
    if words.next().is_none() || words.next().is_none() {
        return Err(Misread::BadLine);
    }
    let Some((pieces, rows)) = two_words(words) else {
        return Err(Misread::BadLine);
    };
    let Some(pieces) = find_digits(pieces) else {
        return Err(Misread::BadLine);
    };
    let Some(rows) = find_digits(rows) else {
        return Err(Misread::BadLine);
    };
    if pieces == 0 && rows != 0 {
        return Err(Misread::BadLine);
    }
    Ok((pieces, rows))
}

/// The turn of a piece in its scan: whether others came before it, how many come behind it, and how
/// many rows are left.
#[derive(Clone, Copy)]
pub struct Turn {
    pub is_later: bool,
    pub behind: u64,
    pub left: u64,
}

/// What the line of a piece says: its point, how many rows it has, and its columns.
#[derive(Clone, Copy)]
pub struct ReadHead {
    pub point: u64,
    pub count: u64,
    pub columns: ReadColumns,
}

impl LineKind for Turn {
    ghost use Rattle.report_forms.specs.Scans.{PieceHead, piece_head_told, piece_head_text, is_piece_head};
    ghost use Rattle.report_reading.specs.Pieces.{head_seen, turn_seen, has_small_numbers, takes_turn};

    type Read = ReadHead;

    ghost Seen = { PieceHead };

    ghost view = { head_seen };

    ghost told = { piece_head_told };

    ghost passes = { λ turn. is_piece_head (turn_seen turn) };

    ghost text = { λ _. piece_head_text };

    ghost can_tell = { λ _. Unit {0} };

    fn tell(&self, _alloc: Global, words: Pieces<'_>) -> Result<ReadHead, Misread> {
        tell_piece(*self, words)
    }

    fn put(&self, out: &mut Vec<u8>, read: &ReadHead) -> Result<(), NoMemory> {
        put_line::<Blank>(
            out,
            &[
                Word::Text("piece"),
                Word::Point(read.point),
                Word::Number(read.count),
                Word::Text(read.columns.how.text()),
                Word::Text(read.columns.note.text()),
            ],
        )
    }
}

fn tell_piece(turn: Turn, words: Pieces<'_>) -> Result<ReadHead, Misread>
    ensures { Tells head_seen result (passing (is_piece_head (turn_seen turn))
        (piece_head_told (pieces_left words.entry))) }
{
    let Some(head) = find_head(words) else {
        return Err(Misread::BadLine);
    };
    if !may_take_turn(turn, head) {
        return Err(Misread::BadLine);
    }
    Ok(head)
}

fn find_head(mut words: Pieces<'_>) -> Option<ReadHead>
    ensures { option_map head_seen result ≡ passing has_small_numbers
        (piece_head_told (pieces_left words.entry)) }
{
    let _piece = words.next()?;
    let point = words.next()?;
    let count = words.next()?;
    let (how, note) = two_words(words)?;
    Some(ReadHead {
        point: find_point(point)?,
        count: find_digits(count)?,
        columns: columns_in(how, note),
    })
}

fn may_take_turn(turn: Turn, head: ReadHead) -> bool
    ensures { result ≡ takes_turn (turn_seen turn) (head_seen head) }
{
    let has_rows = if turn.behind == 0 {
        head.count == turn.left
    } else {
        head.count <= turn.left
    };
    has_rows
        && if turn.is_later {
            may_stand_later(head.columns)
        } else {
            may_stand(head.columns)
        }
}

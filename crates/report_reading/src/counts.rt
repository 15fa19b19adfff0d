//! The statistics that the answers tell.
ghost use Rattle.std.specs.Prelude.{◌<◌, [], ◌∷◌, ◌==◌, length, map, IfOk, OnOk, if◌then◌else◌};
ghost use Rattle.std.specs.List.{All, zip};
ghost use Rattle.column_counts.specs.Counted.{AreCounts};
ghost use Rattle.map_history.specs.LegalReport as legal;
ghost use Rattle.map_history.specs.Lines.{line_texts};
ghost use Rattle.report_reading.specs.Columns.{columns_seen};
ghost use Rattle.report_reading.specs.Counts.{CountsMore, columns_among, piece_columns};
ghost use Rattle.report_reading.specs.Told.{told_seen, line_seen, lines_seen, lane_asked, AsksKnown, AskKnown};

use crate::columns::ReadColumns;
use crate::pieces::ReadPiece;
use crate::told::{ReadLine, ReadTold};
use column_counts::{count_told, no_counts};
use key_tuple::NoMemory;
use map_history::Counts;
use script::Line;
use std::alloc::Global;

/// The statistics of so many indexes, by what the lines of all lanes were answered.
pub fn count_lanes(
    alloc: Global,
    indexes: usize,
    lanes: &[Vec<Line>],
    told: &[Vec<ReadLine>],
) -> Result<Vec<Counts>, NoMemory>
    requires { All (AskKnown indexes) lanes.now }
    ensures { IfOk result (λ all. AreCounts indexes
        (columns_among (map lane_asked lanes.now) (map lines_seen told.now)) all.items) }
{
    let mut counts = no_counts(alloc, indexes)?;
    for lane in 0..lanes.len().min(told.len()) {
        count_lines(&mut counts, &lanes[lane], &told[lane])?;
    }
    Ok(counts)
}

/// Counts what the lines of a lane were answered.
fn count_lines(counts: &mut [Counts], lines: &[Line], told: &[ReadLine]) -> Result<(), NoMemory>
    requires { All (AsksKnown (length counts.old)) lines.now }
    ensures { OnOk result (CountsMore counts.old counts.new
        (λ i. legal.columns_in i (zip (line_texts lines.now) (map line_seen told.now)))) }
{
    for place in 0..lines.len().min(told.len()) {
        let index = lines[place].op.index() as usize;
        count_answer(counts, index, &told[place].told)?;
    }
    Ok(())
}

/// Counts the columns of an answer of an index.
fn count_answer(counts: &mut [Counts], index: usize, told: &ReadTold) -> Result<(), NoMemory>
    requires { index < length counts.old }
    ensures { OnOk result (CountsMore counts.old counts.new
        (λ i. if index == i then legal.columns_of (told_seen told.now) else [])) }
{
    match told {
        ReadTold::Plain(answer) => count_one(counts, index, answer.columns()),
        ReadTold::Pieces(pieces) => count_pieces(counts, index, pieces),
    }
}

/// Counts the columns of the pieces of a scan.
fn count_pieces(counts: &mut [Counts], index: usize, pieces: &[ReadPiece]) -> Result<(), NoMemory>
    requires { index < length counts.old }
    ensures { OnOk result (CountsMore counts.old counts.new
        (λ i. if index == i then map piece_columns pieces.now else [])) }
{
    for place in 0..pieces.len() {
        count_one(counts, index, pieces[place].columns)?;
    }
    Ok(())
}

/// Counts the columns of one line.
fn count_one(counts: &mut [Counts], index: usize, columns: ReadColumns) -> Result<(), NoMemory>
    requires { index < length counts.old }
    ensures { OnOk result (CountsMore counts.old counts.new
        (λ i. if index == i then columns_seen columns ∷ [] else [])) }
{
    count_told(&mut counts[index], columns.how, columns.note)
}

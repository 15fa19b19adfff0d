//! The columns of one answer, counted.
ghost use Rattle.std.specs.Prelude.{◌≡◌, ◌<◌, [], ◌∷◌, length, replicate};
ghost use Rattle.std.specs.Prelude.{IfOk, IfSome, OnOk, OnErr};
ghost use Rattle.map_history.specs.Statistics.{counts_of};
ghost use Rattle.column_counts.specs.Places.{raised_at};
ghost use Rattle.column_counts.specs.Sums.{sum_of};

use crate::places::{how_place, note_place};
use crate::sums::sum_within;
use key_tuple::NoMemory;
use map_history::{COUNTED, Counts, How, Note};
use std::alloc::Global;

/// For each of so many indexes, counts of nothing.
pub fn no_counts(alloc: Global, indexes: usize) -> Result<Vec<Counts>, NoMemory>
    ensures { IfOk result (λ all. all.items ≡ replicate indexes (counts_of [])) }
{
    Ok(vec![in alloc; Counts::none(); indexes]?)
}

/// Counts the two columns of an answer. Where a number is at its end, memory is said to lack, and
/// nothing is counted: it would take 2^64 answers.
pub fn count_told(counts: &mut Counts, how: How, note: Note) -> Result<(), NoMemory>
    ensures ok { OnOk result (
        counts.new ≡ sum_of counts.old (counts_of (record { how = how; note = note } ∷ []))) }
    ensures err { OnErr result (counts.new ≡ counts.old) }
{
    let mut numbers = counts.numbers;
    raise(&mut numbers, how_place(how))?;
    raise(&mut numbers, note_place(note))?;
    *counts = Counts { numbers };
    Ok(())
}

/// Raises the number at a place, if there is one.
fn raise(numbers: &mut [u64; COUNTED], place: Option<usize>) -> Result<(), NoMemory>
    requires { IfSome place (λ i. i < length numbers.old) }
    ensures { OnOk result (numbers.new ≡ raised_at place numbers.old) }
{
    let Some(place) = place else {
        return Ok(());
    };
    numbers[place] = sum_within(numbers[place], 1)?;
    Ok(())
}

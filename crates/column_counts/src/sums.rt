//! Counts added up.
ghost use Rattle.std.specs.Prelude.{◌≡◌, ◌+◌, [], length, replicate, IfOk, OnOk};
ghost use Rattle.std.specs.List.{AllByRecursion};
ghost use Rattle.map_history.specs.Statistics.{counts_of};
ghost use Rattle.column_counts.specs.Sums.{sum_of, sums_of, all_sums, count_lists};

use crate::counting::no_counts;
use key_tuple::NoMemory;
use map_history::{COUNTED, Counts};
use std::alloc::Global;

/// The sums of some lists of counts, index by index. Where a sum passes the largest number, memory
/// is said to lack.
pub fn add_up(alloc: Global, indexes: usize, lists: &[Vec<Counts>]) -> Result<Vec<Counts>, NoMemory>
    requires { AllByRecursion (λ list. length list.items ≡ indexes) lists.now }
    ensures { IfOk result (λ sums. sums.items
        ≡ all_sums (replicate indexes (counts_of [])) (count_lists lists.now)) }
{
    let mut sums = no_counts(alloc, indexes)?;
    for list in lists {
        add_each(&mut sums, list)?;
    }
    Ok(sums)
}

/// Adds other counts, index by index.
fn add_each(sums: &mut [Counts], others: &[Counts]) -> Result<(), NoMemory>
    requires { length others.now ≡ length sums.old }
    ensures { OnOk result (sums.new ≡ sums_of sums.old others.now) }
{
    for (index, counts) in others.iter().enumerate() {
        add_counts(&mut sums[index], counts)?;
    }
    Ok(())
}

/// Adds other counts, word by word.
fn add_counts(sum: &mut Counts, other: &Counts) -> Result<(), NoMemory>
    ensures { OnOk result (sum.new ≡ sum_of sum.old other.now) }
{
    for place in 0..COUNTED {
        sum.numbers[place] = sum_within(sum.numbers[place], other.numbers[place])?;
    }
    Ok(())
}

/// The sum of two numbers, if a number can be as large.
pub(crate) fn sum_within(a: u64, b: u64) -> Result<u64, NoMemory>
    ensures { IfOk result (λ sum. sum ≡ a + b) }
{
    a.checked_add(b).ok_or(NoMemory)
}

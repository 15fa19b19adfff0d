//! The first of the lowest numbers of a range.
ghost use Rattle.std.specs.Prelude.{◌<◌, ◌≤◌, length};
ghost use Rattle.block_ages.specs.Lows.{IsLowestIn};

/// Where the lowest number of the range stands, and of several the first.
pub(crate) fn lowest_in(numbers: &[u64], from: usize, to: usize) -> usize
    requires some { from < to }
    requires within { to ≤ length numbers.now }
    ensures { IsLowestIn numbers.now from to result }
{
    let mut lowest = from;
    for i in from + 1..to {
        if numbers[i] < numbers[lowest] {
            lowest = i;
        }
    }
    lowest
}

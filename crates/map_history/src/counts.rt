//! Statistics of an index.
ghost use Rattle.std.specs.Prelude.{◌≡◌, [], map};
ghost use Rattle.map_history.specs.Words.{counted_words};
ghost use Rattle.map_history.specs.Statistics.{counts_of};

use crate::columns::{How, Note};

/// How many words are counted.
pub const COUNTED: usize = 18;

/// How many answers and pieces of an index have each word of `counted_words` in their columns, in
/// the order of these words.
#[derive(Clone, Copy)]
pub struct Counts {
    pub numbers: [u64; COUNTED],
}

impl Counts {
    /// No word was counted.
    pub fn none() -> Counts
        ensures { result ≡ counts_of [] }
    {
        Counts {
            numbers: [0; COUNTED],
        }
    }
}

/// The words of the statistics, in the order of their line.
pub fn counted_words() -> [&'static str; COUNTED]
    ensures { map (λ word. word.now) result ≡ counted_words }
{
    [
        How::Hit.text(),
        How::Off.text(),
        How::Cold.text(),
        How::Short.text(),
        How::PartBusy.text(),
        How::NoEntry.text(),
        How::BlockBusy.text(),
        How::Clock.text(),
        How::Unequal.text(),
        How::ByClock.text(),
        How::ByBusy.text(),
        How::ByMoved.text(),
        How::ByLast.text(),
        Note::Built.text(),
        Note::Same.text(),
        Note::Arena.text(),
        Note::Raced.text(),
        Note::Worn.text(),
    ]
}

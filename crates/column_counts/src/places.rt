//! The places of the words in the statistics.
ghost use Rattle.std.specs.Prelude.{◌≡◌};
ghost use Rattle.column_counts.specs.Places as places;

use map_history::{How, Note};

/// The place of a word of the first column among the counted words.
pub(crate) fn how_place(how: How) -> Option<usize>
    ensures { result ≡ places.how_place how }
{
    match how {
        How::Dash => None,
        How::Hit => Some(0),
        How::Off => Some(1),
        How::Cold => Some(2),
        How::Short => Some(3),
        How::PartBusy => Some(4),
        How::NoEntry => Some(5),
        How::BlockBusy => Some(6),
        How::Clock => Some(7),
        How::Unequal => Some(8),
        How::ByClock => Some(9),
        How::ByBusy => Some(10),
        How::ByMoved => Some(11),
        How::ByLast => Some(12),
    }
}

/// The same of a word of the second column.
pub(crate) fn note_place(note: Note) -> Option<usize>
    ensures { result ≡ places.note_place note }
{
    match note {
        Note::Dash => None,
        Note::No => None,
        Note::Built => Some(13),
        Note::Same => Some(14),
        Note::Arena => Some(15),
        Note::Raced => Some(16),
        Note::Worn => Some(17),
    }
}

//! The two last columns of a line.
ghost use Rattle.std.specs.Prelude.{◌≡◌};
ghost use Rattle.std.specs.List.{find};
ghost use Rattle.std.specs.Str.{bytes_eq};
ghost use Rattle.map_history.specs.Columns as form;
ghost use Rattle.map_history.specs.Words.{how_text, note_text, counted_hows};
ghost use Rattle.report_forms.specs.Answers.{columns_told, how_named, note_named};
ghost use Rattle.report_reading.specs.Columns.{columns_seen, telling_notes};

use map_history::{How, Note};

/// The two last columns of a line.
#[derive(Clone, Copy)]
pub struct ReadColumns {
    pub how: How,
    pub note: Note,
}

/// The words that a search may have, in their order.
const HOWS: [How; 13] = [
    How::Hit,
    How::Off,
    How::Cold,
    How::Short,
    How::PartBusy,
    How::NoEntry,
    How::BlockBusy,
    How::Clock,
    How::Unequal,
    How::ByClock,
    How::ByBusy,
    How::ByMoved,
    How::ByLast,
];

/// The words that tell of learning, in their order.
const NOTES: [Note; 6] = [
    Note::No,
    Note::Built,
    Note::Same,
    Note::Arena,
    Note::Raced,
    Note::Worn,
];

/// The columns of two words; one that isn't a column's is taken for `-`.
pub fn columns_in(how: &[u8], note: &[u8]) -> ReadColumns
    ensures { columns_seen result ≡ columns_told how.now note.now }
{
    ReadColumns {
        how: how_in(how),
        note: note_in(note),
    }
}

fn how_in(word: &[u8]) -> How
    ensures { result ≡ how_named word.now }
{
    find_how(word).unwrap_or(How::Dash)
}

fn find_how(word: &[u8]) -> Option<How>
    ensures { result ≡ find (λ how. bytes_eq (how_text how) word.now) counted_hows }
{
    HOWS.iter()
        .copied()
        .find(|how| how.text().as_bytes() == word)
}

fn note_in(word: &[u8]) -> Note
    ensures { result ≡ note_named word.now }
{
    find_note(word).unwrap_or(Note::Dash)
}

fn find_note(word: &[u8]) -> Option<Note>
    ensures { result ≡ find (λ note. bytes_eq (note_text note) word.now) telling_notes }
{
    NOTES
        .iter()
        .copied()
        .find(|note| note.text().as_bytes() == word)
}

/// The columns may be those of an answer, or of the first piece of a scan.
pub fn may_stand(columns: ReadColumns) -> bool
    ensures { result ≡ form.may_stand (columns_seen columns) }
{
    match columns.how {
        How::Dash | How::ByClock | How::ByBusy | How::ByMoved | How::ByLast => false,
        How::Hit => matches!(columns.note, Note::Dash | Note::Raced | Note::Worn),
        _ => !matches!(columns.note, Note::Dash),
    }
}

/// The columns may be those of a later piece of a scan.
pub fn may_stand_later(columns: ReadColumns) -> bool
    ensures { result ≡ form.may_stand_later (columns_seen columns) }
{
    match columns.how {
        How::ByClock | How::ByBusy | How::ByMoved | How::ByLast => {
            matches!(columns.note, Note::Dash)
        }
        _ => false,
    }
}

//! What an index of so many fields may ask for, and be told.
ghost use Rattle.std.specs.Prelude.{◌≡◌, ◌↔◌, ◌<◌, ◌≤◌, IsTrue};
ghost use Rattle.key_tuple.specs.declared.TheConstants.{MAX_KEY_BYTES};
ghost use Rattle.learning.specs.Bounds.{IsDescentOf, IsInfoOf};
ghost use Rattle.learning.specs.Word.{FitsWord};

use crate::event::Descent;
use crate::info::Info;
use crate::{ANALYSIS_WIDTH, BYTES_WIDTH, EVENTS_PLACE, FIELDS_WIDTH, POTENTIAL_WIDTH};
use key_tuple::{MAX_KEY_BYTES, Match};

/// Whether a descent is one in an index of so many fields.
pub fn is_descent_of(unique: u8, descent: &Descent) -> bool
    ensures { IsTrue result ↔ IsDescentOf unique descent.now }
{
    let figures = &descent.figures;
    descent.unique == unique
        && is_within(unique, &figures.low)
        && is_within(unique, &figures.up)
        && descent.block.advice.asked_fields() <= u16::from(unique)
}

fn is_within(unique: u8, row: &Match) -> bool
    ensures { IsTrue result ↔ ((row.now.fields ≤ unique) × (row.now.bytes ≤ MAX_KEY_BYTES)) }
{
    row.fields <= unique && usize::from(row.bytes) <= MAX_KEY_BYTES
}

/// Whether an index of so many fields may know this: it asks for no more fields, and fits the word.
pub fn is_info_of(unique: u8, info: &Info) -> bool
    ensures { IsTrue result ↔ IsInfoOf unique info.now }
{
    let asks = info.params.asked_fields() <= u16::from(unique);
    asks && fits_word(info)
}

/// Whether each field is small enough for its place in the word.
fn fits_word(info: &Info) -> bool
    ensures { IsTrue result ↔ FitsWord info.now }
{
    let Info { events, .. } = *info;
    let counts = is_below(info.potential, 1 << POTENTIAL_WIDTH)
        && is_below(info.analysis, 1 << ANALYSIS_WIDTH);
    let prefix = is_below(info.params.fields, 1 << FIELDS_WIDTH)
        && info.params.bytes < 1 << BYTES_WIDTH;
    counts && prefix && u64::from(events) < 1 << (64 - EVENTS_PLACE)
}

fn is_below(count: u8, limit: u8) -> bool
    ensures { IsTrue result ↔ (count < limit) }
{
    count < limit
}

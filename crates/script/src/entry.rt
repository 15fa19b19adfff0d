//! The words that a schema's line begins with.
ghost use Rattle.std.specs.Prelude.{◌≡◌};
ghost use Rattle.script.specs.Schema.{entry_named};

use settings::{Setting, find_setting};

/// What a line of a schema sets.
#[derive(Clone, Copy)]
pub enum Entry {
    /// An index: its name, and the number of its keys' fields.
    Index,
    /// A setting: its number.
    Set(Setting),
}

/// The entry of a word.
pub fn find_entry(word: &[u8]) -> Option<Entry>
    ensures { result ≡ entry_named word.now }
{
    if word == b"index".as_slice() {
        Some(Entry::Index)
    } else {
        find_setting(word).map(Entry::Set)
    }
}

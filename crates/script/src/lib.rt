//! Schema files and lane files as bytes, read into indexes and operations, or refused at the first
//! line that isn't in their grammar. Nothing here opens a file.
#![tactic(auto)]

mod draft;
mod entry;
mod error;
mod field;
mod lane;
mod modes;
mod names;
mod numbers;
mod pieces;
mod reading;
mod rows;
mod schema;
mod verb;
mod words;

pub use error::{Flaw, Refusal, ScriptError};
pub use field::field as read_field;
pub use map_history::Line;
use map_history::Sizes;
pub use pieces::Pieces;
pub use reading::{read_lane, read_schema};
pub use rows::{KeyText, key_text, key_within, value_within};
pub use schema::Schema;
pub use words::{one_word, two_words};

/// The most bytes of a file that is read: 64 MiB.
pub const MAX_FILE_BYTES: usize = 67_108_864;

/// The most bytes of an index's name.
pub const MAX_NAME_BYTES: usize = 32;

/// The sizes of a schema that sets none.
pub const DEFAULT_SIZES: Sizes = Sizes {
    blocks: 256,
    pages: 4096,
    parts: 8,
    cells: 4096,
    nodes: 16384,
    fold_bits: 64,
    max_changes: 1_000_000,
};

//! Keys of several byte fields: their order, how far two of them agree, and their limits.
//! Nothing here knows of pages or trees.
#![tactic(auto)]

mod buffer;
mod error;
mod fields;
mod folding;
mod key;
mod laws;
mod lent;
mod mode;
mod order;
mod sizes;
mod tuple;
mod value;

pub use buffer::FieldBuffer;
pub use error::{KeyError, NoMemory};
pub use fields::{Blank, Fields};
pub use folding::fold;
pub use key::Key;
pub use laws::{
    folds_follow_prefixes, keys_are_ordered, largest_sizes, places_are_ordered, sizes_are_limited,
    sizes_follow_lengths, tuples_cut, tuples_follow_keys,
};
pub use lent::LentFields;
pub use mode::{Match, Mode, Params};
pub use order::{compare, compare_whole, is_past, matches};
pub use sizes::{pointer_size, row_size};
pub use tuple::Tuple;
pub use value::Value;

/// The most fields of a key.
pub const MAX_FIELDS: u8 = 4;

/// The most bytes of a key's fields together.
pub const MAX_KEY_BYTES: usize = 767;

/// The most bytes of a value.
pub const MAX_VALUE_BYTES: usize = 2048;

/// The most bytes that a row takes on a page.
pub const MAX_ROW_SIZE: u16 = 2830;

/// The most bytes that a pointer takes on a page.
pub const MAX_POINTER_SIZE: u16 = 784;

/// How many fields a buffer has offsets for: as many as a key may have.
pub const FIELD_ROOM: usize = 4;

//! What an index learns from its searches: how its keys are best hashed, and when a block is worth
//! hashing. Nothing here shares or waits: these are rules over plain values.
#![tactic(auto)]

mod bounds;
mod build;
mod event;
mod info;
mod law;
mod lesson;
mod recommend;
mod word;

pub use bounds::{is_descent_of, is_info_of};
pub use build::should_build;
pub use event::{BlockFigures, Descent, Event, Figures};
pub use info::Info;
pub use law::{
    events_are_counted, infos_stay_bounded, recommendations_are_confirmed, words_tell_infos,
};
pub use lesson::{learn, learn_block};
pub use word::{pack, unpack};

/// How many descents a new recommendation waits before it is looked at.
pub const HASH_ANALYSIS: u8 = 17;

/// The potential from which blocks are built.
pub const BUILD_LIMIT: u8 = 100;

/// A block is built once it has helped more often than its rows divided by this.
pub const PAGE_BUILD_LIMIT: u16 = 16;

/// The potential to which hits raise it.
pub const HIT_LIMIT: u8 = 105;

/// The potential to which descents raise it.
pub const MAX_POTENTIAL: u8 = 127;

/// The place of `last` in the word: its lowest bit.
pub const LAST_PLACE: u32 = 0;

/// The place of the recommendation's side.
pub const LEFT_PLACE: u32 = 1;

/// The place of the potential.
pub const POTENTIAL_PLACE: u32 = 2;

/// How many bits the potential has.
pub const POTENTIAL_WIDTH: u32 = 7;

/// The place of the analysis.
pub const ANALYSIS_PLACE: u32 = 9;

/// How many bits the analysis has.
pub const ANALYSIS_WIDTH: u32 = 5;

/// The place of the recommendation's fields.
pub const FIELDS_PLACE: u32 = 14;

/// How many bits the fields have.
pub const FIELDS_WIDTH: u32 = 3;

/// The place of the recommendation's bytes.
pub const BYTES_PLACE: u32 = 17;

/// How many bits the bytes have.
pub const BYTES_WIDTH: u32 = 10;

/// The place of the event count, which fills the word.
pub const EVENTS_PLACE: u32 = 32;

//! An ordered map, its changes and replies, and what a legal report of a run is.
//! Nothing here knows of pages, threads or files.
#![tactic(auto)]

mod answers;
mod change;
mod changes;
mod columns;
mod counts;
mod laws;
mod line;
mod op;
mod part_list;
mod ranges;
mod reply;
mod row_buf;
mod rows;
mod sizes;

pub use answers::answer;
pub use change::Change;
pub use changes::{apply, is_allowed, make, pairs_ascend};
pub use columns::{How, Note};
pub use counts::{COUNTED, Counts, counted_words};
pub use laws::{
    changes_are_local, lists_grow, maps_ascend, replies_stay, reports_without_full_have_room,
    searches_find, slices_change,
};
pub use line::Line;
pub use op::{Op, OpRef};
pub use ranges::{first_from, last_below};
pub use reply::{Piece, Reply, Told};
pub use row_buf::RowBuf;
pub use rows::{RowIn, Rows};
pub use sizes::Sizes;

/// The most indexes of a run.
pub const MAX_INDEXES: usize = 64;

/// The most lanes of a run.
pub const MAX_LANES: usize = 64;

/// How many blocks a lane wants; as many are wanted beside the lanes.
pub const LANE_BLOCKS: u32 = 8;

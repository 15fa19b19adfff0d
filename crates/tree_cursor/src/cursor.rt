//! A cursor, and what becomes of it.
use index_page::Place;
use key_tuple::Key;

/// A place in the order of an index's keys, on a leaf that may have been given back since.
#[derive(Drop)]
pub struct Cursor {
    /// The block whose frame had the leaf.
    pub block: u32,
    /// The frame's clock then.
    pub clock: u64,
    /// The leaf's number.
    pub page: u32,
    /// The place of the row that has the key. Without one the key is the leaf's high key or, where
    /// the cursor stands behind it, any key within the leaf's bounds.
    pub place: Option<Place>,
    /// The key.
    pub key: Key,
    /// Whether the cursor stands just behind the key, and not just before it.
    pub after: bool,
}

/// How the leaf of a cursor was found again.
#[derive(Clone, Copy)]
pub enum Restored {
    /// The block's frame is held, and its clock is the one kept.
    ByClock {
        /// The cursor's block.
        block: u32,
    },
    /// Nothing more is held, and the leaf is to be found by a search of the key.
    BySearch {
        /// Why it was not found.
        cause: Stale,
    },
}

/// Why the leaf of a cursor has to be searched.
#[derive(Clone, Copy)]
pub enum Stale {
    /// Another pass held the block's frame.
    Busy {
        /// The pass that held it.
        holder: u32,
    },
    /// The frame's clock is another one.
    Moved {
        /// The clock that the cursor kept.
        kept: u64,
        /// The clock that was found.
        found: u64,
    },
    /// The clock kept is the last value, which guards nothing.
    Last,
}

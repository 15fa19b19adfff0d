//! What a search of a key came to.
use index_page::Place;
use map_history::{How, Note};
use tree_descent::Leaf;

/// What is in hand after a search of a key: its leaf, and perhaps where its row stands there.
#[derive(Clone, Copy)]
pub enum KeySearch {
    /// The hash led to the key's row.
    Row {
        /// The block whose frame has its leaf.
        block: u32,
        /// The row's place there.
        place: Place,
        /// What became of the learning.
        note: Note,
    },
    /// The leaf, where the hash led to a row beside the key or a way led down.
    Leaf(Searched),
}

/// The leaf of a key in hand, how it was found, and what was learnt from that.
#[derive(Clone, Copy)]
pub struct Searched {
    /// The leaf, and where the key belongs on it.
    pub leaf: Leaf,
    /// By the hash, or why by a way down.
    pub how: How,
    /// What became of the learning, and of a build.
    pub note: Note,
}

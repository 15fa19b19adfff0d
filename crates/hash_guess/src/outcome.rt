//! What a guess tells.
use crate::cause::Cause;
use index_page::Place;
use search_info::Learn;

/// What a guess tells.
#[derive(Clone, Copy)]
pub enum Guess {
    /// The block's frame is held, and the row at the place of its page is the one that the mode asks
    /// for.
    Hit {
        /// The block.
        block: u32,
        /// The row's place on its page.
        place: Place,
        /// Whether the tuple's fields are those of the row's key.
        found: bool,
        /// What came of the hit for the index.
        learn: Learn,
    },
    /// Nothing is held besides.
    Miss {
        /// Why.
        cause: Cause,
        /// What came of the miss for the index, where the hash was asked.
        learn: Option<Learn>,
    },
}

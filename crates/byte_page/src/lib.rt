//! A page of a B-tree index that is its 16,384 bytes, seen as the head and the rows they spell.
//! It never holds a row beside its bytes, and never looks at another page.
#![tactic(auto)]

mod appending;
mod copy;
mod deleting;
mod entering;
mod front;
mod inserting;
mod laws;
mod moving;
mod page;
mod reorganising;
mod replacing;
mod search;
mod setting;
mod walks;

pub use copy::ByteCopy;
pub use laws::sets_agree;
pub use page::BytePage;
pub use search::ByteSpot;

/// The bytes of a page.
pub const PAGE_BYTES: usize = 16_384;

//! Cursors: a place on a leaf that was given back, the way back to it by the leaf's clock, and the rows
//! from there on as a piece of a scan. Nothing here restructures or searches a tree, and no tree is taken.
#![tactic(auto)]

mod cursor;
mod empty;
mod filling;
mod laws;
mod pieces;
mod restoring;
mod saying;
mod starting;
mod storing;

pub use cursor::{Cursor, Restored, Stale};
pub use laws::cursors_are_referred;
pub use pieces::{PieceCall, Step};
pub use restoring::restore;
pub use storing::store;

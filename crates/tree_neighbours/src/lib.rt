//! The leaf of a search, and the leaf beside it where the row that is sought may be there.
//! Nothing here restructures, and no tree is taken.
#![tactic(auto)]

mod beside;
mod pairs;
mod side;

pub use beside::{Beside, take_beside};
pub use pairs::{LeafPair, descend_pair};
pub use side::{Side, side_of};

//! Room for a row: the pages on the way to a leaf are split, from the root down, with the index's
//! tree in hand. No row is put in here, and no page is ever merged.
#![tactic(auto)]

mod growing;
mod halves;
mod looking;
mod room;
mod way;

pub use growing::take_root;
pub use looking::{PageInHand, page_in_hand};
pub use room::make_room;

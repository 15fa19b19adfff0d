//! A page of a B-tree index: a head, and rows by ascending keys at places that stay.
//! It never looks at another page but those to which its rows go.
#![tactic(auto)]

mod appending;
mod body;
mod change;
mod charges;
mod copy;
mod error;
mod head;
mod heads;
mod heap;
mod laws;
mod loads;
mod moves;
mod page;
mod places;
mod record;
mod records;
mod rewriting;
mod room;
mod row_ref;
mod search;
mod slot;
mod spot;
mod walks;

pub use body::Body;
pub use charges::charge;
pub use copy::PageCopy;
pub use error::PageError;
pub use head::PageHead;
pub use laws::{
    halves_are_near, loads_add_up, none_is_scattered, places_tell_rows, rows_have_room,
    spots_pick_rows, spots_tell_keys,
};
pub use page::Page;
pub use room::Gaps;
pub use row_ref::RowRef;
pub use spot::{Place, Spot};

/// No page has this number.
pub const NO_PAGE: u32 = 4_294_967_295;

/// The bytes of a page that its records are charged against.
pub const PAGE_ROOM: u16 = 16_252;

/// The most that a page is charged for a record.
pub const MAX_CHARGE: u16 = 2_831;

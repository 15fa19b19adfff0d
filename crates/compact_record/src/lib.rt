//! Records in the bytes of a page: written, measured, and read where they stand.
//! It takes no memory, and never looks beside the record that it is given.
#![tactic(auto)]

mod bytes;
mod copying;
mod kind;
mod laws;
mod lengths;
mod reading;
mod record_ref;
mod writing;

pub use bytes::{get_bytes, get_u16, put_bytes, put_u16};
pub use copying::copy_record;
pub use kind::RecordKind;
pub use laws::{records_read_back, records_stay};
pub use reading::{Extent, measure};
pub use record_ref::{RecordRef, view};
pub use writing::{RecordHead, write};

/// The bytes between a record's lengths and its place.
pub const HEAD_BYTES: usize = 5;

/// The bytes of a child page's number.
pub const CHILD_BYTES: usize = 4;

/// The greatest length that is written in one byte.
pub const MAX_SHORT_LENGTH: usize = 127;

/// Each length is below this.
pub const LENGTH_LIMIT: usize = 32_768;

/// Each record's number among those of its page is below this.
pub const HEAP_NUMBERS: u16 = 8_192;

/// The longest page.
pub const MAX_PAGE_BYTES: usize = 65_535;

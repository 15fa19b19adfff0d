//! A caller of a learner.
ghost use Rattle.std.specs.Prelude.{◌≡◌, ◌<◌, [], length};

use crate::knows::Knows;
use atomic_table::Seat;

/// A caller of a learner, with the numbers that it may give to its parts.
pub struct LearnPass {
    pub(crate) seat: Seat<u64, Knows>,
    pub(crate) low: u32,
    pub(crate) end: u32,
    ghost numbers: { (low ≡ seat.me.0.low) × (end ≡ seat.me.0.end) × (low < end) },
    ghost all: { length seat.me.0.seen ≡ length seat.me.0.opening.starts },
    ghost nothing: { seat.me.1 ≡ [] },
}

// Written out, so that a crate above drops it by one call.
impl Drop for LearnPass {
    fn drop(self) {
        let Self {
            seat: _,
            low: _,
            end: _,
        } = self;
    }
}

impl LearnPass {
    pub(crate) fn into_seat(self) -> Seat<u64, Knows>
        ensures seat { (result.table_id ≡ self.seat.table_id) × (result.id ≡ self.seat.id) }
        ensures me { result.me ≡ self.seat.me }
    {
        let Self {
            seat,
            low: _,
            end: _,
        } = self;
        seat
    }
}

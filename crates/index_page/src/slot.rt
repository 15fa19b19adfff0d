//! Where a record lies.
ghost use Rattle.std.specs.Prelude.{◌≡◌, ◌≤◌, ℕ, List, IfOk};
ghost use Rattle.index_page.specs.Slots.{content_in, no_content, IsSlotIn};

use key_tuple::FIELD_ROOM;
use std::alloc::AllocError;

/// Where a record lies in a run of bytes: its key from `start` to `middle`, told apart by the ends
/// of its fields, counted from `start`; and its value from there to `stop`, unless it has a child.
#[derive(Clone, Copy)]
pub(crate) struct Slot {
    pub(crate) start: u32,
    pub(crate) middle: u32,
    pub(crate) stop: u32,
    pub(crate) child: Option<u32>,
    pub(crate) ends: [u16; FIELD_ROOM],
    pub(crate) count: u8,
}

impl Slot {
    /// The slot of a record of nothing, which has no bytes.
    pub(crate) fn blank() -> Slot
        ensures says { (bytes : List ℕ) → content_in bytes result ≡ no_content }
        ensures is { (bytes : List ℕ) → IsSlotIn bytes result }
        ensures nowhere { result.stop ≡ 0 }
    {
        Slot {
            start: 0,
            middle: 0,
            stop: 0,
            child: None,
            ends: [0; FIELD_ROOM],
            count: 0,
        }
    }

    /// The slot of the same record at other offsets. There is no room behind 4 GiB.
    pub(crate) fn moved(&self, start: usize, middle: usize, stop: usize) -> Result<Slot, AllocError>
        requires key { start ≤ middle }
        requires value { middle ≤ stop }
        ensures { IfOk result (λ slot. slot ≡ record {
          start = start;
          middle = middle;
          stop = stop;
          child = self.now.child;
          ends = self.now.ends;
          count = self.now.count;
        }) }
    {
        if stop > u32::MAX as usize {
            return Err(AllocError);
        }
        Ok(Slot {
            start: start as u32,
            middle: middle as u32,
            stop: stop as u32,
            ..*self
        })
    }
}

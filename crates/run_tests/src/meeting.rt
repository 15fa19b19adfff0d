//! A gate at which two lanes meet before each line.
use lanes::Gate;
use std::hint;
use std::sync::atomic::{AtomicBool, AtomicU64, Ordering};

// How often a lane looks for the other before it gives up.
const TURNS: u32 = 10_000_000;

/// Waits until a count is no less than this. Gives up after so many turns, or where the other lane
/// has.
pub(crate) fn wait_for(gave_up: &AtomicBool, turns: u32, count: &AtomicU64, least: u64) {
    for _ in 0..turns {
        if gave_up.load(Ordering::SeqCst) || count.load(Ordering::SeqCst) >= least {
            return;
        }
        hint::spin_loop();
    }
    gave_up.store(true, Ordering::SeqCst);
}

/// Holds lanes 1 and 2 before line n, 2 or 3, until both have come before it. Gives up after so many
/// turns.
#[derive(Drop)]
pub(crate) struct Meeting {
    // How often each lane has come before lines 2 and 3.
    first: [AtomicU64; 2],
    second: [AtomicU64; 2],
    // How often another lane or line has come.
    others: AtomicU64,
    gave_up: AtomicBool,
}

impl Meeting {
    pub(crate) fn new() -> Self {
        Meeting {
            first: [AtomicU64::new(0), AtomicU64::new(0)],
            second: [AtomicU64::new(0), AtomicU64::new(0)],
            others: AtomicU64::new(0),
            gave_up: AtomicBool::new(false),
        }
    }

    /// Whether a lane waited in vain.
    pub(crate) fn gave_up(&self) -> bool {
        self.gave_up.load(Ordering::SeqCst)
    }

    /// How often lane 1 came before lines 2 and 3, then lane 2, then all else.
    pub(crate) fn counts(&self) -> [u64; 5] {
        [
            self.first[0].load(Ordering::SeqCst),
            self.first[1].load(Ordering::SeqCst),
            self.second[0].load(Ordering::SeqCst),
            self.second[1].load(Ordering::SeqCst),
            self.others.load(Ordering::SeqCst),
        ]
    }
}

impl Gate for Meeting {
    fn before(&self, lane: u32, line: u32) {
        let (mine, other) = match (lane, line) {
            (1, 2) => (&self.first[0], &self.second[0]),
            (1, 3) => (&self.first[1], &self.second[1]),
            (2, 2) => (&self.second[0], &self.first[0]),
            (2, 3) => (&self.second[1], &self.first[1]),
            _ => (&self.others, &self.others),
        };
        mine.fetch_add(1, Ordering::SeqCst);
        wait_for(&self.gave_up, TURNS, other, 1);
    }
}

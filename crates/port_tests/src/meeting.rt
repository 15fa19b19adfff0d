//! A gate at which two lanes meet before each line.
use lanes::Gate;
use std::hint;
use std::sync::atomic::{AtomicBool, AtomicU64, Ordering};

// How often a lane looks for the other before it gives up.
const TURNS: u32 = 10_000_000;

/// Holds lanes 0 and 1 before line n until both have come before it. Gives up after so many turns.
#[derive(Drop)]
pub(crate) struct Meeting {
    // How many lines each lane has come before.
    come: [AtomicU64; 2],
    gave_up: AtomicBool,
}

impl Meeting {
    pub(crate) fn new() -> Self {
        Meeting {
            come: [AtomicU64::new(0), AtomicU64::new(0)],
            gave_up: AtomicBool::new(false),
        }
    }

    /// Whether a lane waited in vain.
    pub(crate) fn gave_up(&self) -> bool {
        self.gave_up.load(Ordering::SeqCst)
    }
}

impl Gate for Meeting {
    fn before(&self, lane: u32, line: u32) {
        let mine = (lane % 2) as usize;
        let arrived = u64::from(line) + 1;
        self.come[mine].store(arrived, Ordering::SeqCst);
        for _ in 0..TURNS {
            if self.gave_up() || self.come[1 - mine].load(Ordering::SeqCst) >= arrived {
                return;
            }
            hint::spin_loop();
        }
        self.gave_up.store(true, Ordering::SeqCst);
    }
}

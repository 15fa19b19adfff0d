//! What came of an event.
use learning::Info;

/// What came of a try to count an event.
#[derive(Clone, Copy, PartialEq, Eq)]
pub enum Learn {
    /// The event was counted.
    Learnt {
        /// What the index knew before the event.
        before: Info,
        /// What it knew after it.
        after: Info,
        /// Whether a build is due.
        build: bool,
    },
    /// Another event was counted between the load and the exchange, so this one was not.
    Raced {
        /// What the index knew at the load.
        read: Info,
        /// What it knew at the exchange.
        found: Info,
    },
    /// The event count is at its last value, so this event was not counted.
    Worn,
}

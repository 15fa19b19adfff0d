//! What a pass knows. No value of these types is made.
use learning::{Event, Info};
use std::collections::LinkedList;

/// What `open` fixes: of each index what it knew first and its number of fields, and how many
/// passes there may be.
pub struct Opening {
    pub starts: LinkedList<(Info, u8)>,
    pub passes: u32,
}

/// An event in the list of an index, with the name of the pass that made it.
pub struct Entry {
    pub event: Event,
    pub by: u64,
}

/// What came of a try to count an event.
pub enum Fate {
    /// It is the event at this place of its index's list, from 0.
    Counted(u64),
    /// Another event came between: what the index knew at the load, and at the exchange.
    Raced(Info, Info),
    /// No more events can be counted.
    Worn,
}

/// A try to count an event.
pub struct Try {
    pub index: u64,
    pub event: Event,
    pub by: u64,
    pub fate: Fate,
}

/// What a pass knows: its numbers from `low` to before `end`, a beginning of each index's list of
/// events, and its own tries.
pub struct Knows {
    pub opening: Opening,
    pub low: u64,
    pub end: u64,
    pub seen: LinkedList<LinkedList<Entry>>,
    pub tries: LinkedList<Try>,
}

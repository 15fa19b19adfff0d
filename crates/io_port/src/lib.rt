//! The outside of a program as two traits: files that are loaded by name, and bytes that are put.
//! There is no clock, and an answer that something failed always shows in a count of faults.
#![tactic(auto)]

mod file_shelf;
mod memory_shelf;
mod memory_sink;
mod no_memory;
mod out_sink;
mod shelf;
mod sink;
mod streams;

pub use file_shelf::FileShelf;
pub use memory_shelf::MemoryShelf;
pub use memory_sink::MemorySink;
pub use no_memory::NoMemory;
pub use out_sink::OutSink;
pub use shelf::{Shelf, ShelfError};
pub use sink::{Sink, SinkError};

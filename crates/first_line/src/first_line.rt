//! The first line that goes to a sink, kept for whoever asks later.
use io_port::{Sink, SinkError};
use std::alloc::Global;

/// The most bytes that are kept.
const MOST: usize = 60;

/// A sink that passes everything on, and keeps the beginning of what is put first.
#[derive(Drop)]
pub struct FirstLine<K> {
    sink: K,
    first: Vec<u8>,
    has_begun: bool,
}

impl<K> FirstLine<K> {
    /// Passes on to this sink.
    pub fn new(alloc: Global, sink: K) -> Self {
        FirstLine {
            sink,
            first: Vec::new(alloc),
            has_begun: false,
        }
    }

    /// The sink that all went to, and the beginning of what was put first; nothing of that where
    /// there was no memory for it.
    pub fn into_parts(self) -> (K, Vec<u8>) {
        (self.sink, self.first)
    }
}

impl<K: Sink> Sink for FirstLine<K> {
    ghost written = { λ s. K.Sink.written s.sink };

    ghost faults = { λ s. K.Sink.faults s.sink };

    fn put(&mut self, bytes: &[u8]) -> Result<(), SinkError> {
        if !self.has_begun {
            self.has_begun = true;
            keep(&mut self.first, bytes);
        }
        self.sink.put(bytes)
    }
}

/// Keeps the beginning of some bytes, where there is memory.
fn keep(first: &mut Vec<u8>, bytes: &[u8]) {
    for byte in bytes.iter().take(MOST) {
        if first.push(*byte).is_err() {
            return;
        }
    }
}

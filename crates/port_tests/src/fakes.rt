//! A reader and a writer that move three bytes a call, are interrupted before each, and stop short.
use io_port::NoMemory;
use std::alloc::Global;
use std::io::{self, ErrorKind, Read, Write};
use std::sync::atomic::{AtomicU32, Ordering};

/// Gives its text, counts its reads, and fails from so many on.
#[derive(Drop)]
pub(crate) struct Drip<'a> {
    text: &'a [u8],
    reads: &'a AtomicU32,
    fail_from: u32,
    is_ready: bool,
}

impl<'a> Drip<'a> {
    pub(crate) fn new(text: &'a [u8], reads: &'a AtomicU32, fail_from: u32) -> Self {
        Drip {
            text,
            reads,
            fail_from,
            is_ready: false,
        }
    }
}

impl Read for Drip<'_> {
    fn read(&mut self, buf: &mut [u8]) -> io::Result<usize> {
        self.is_ready = !self.is_ready;
        if self.is_ready {
            return Err(ErrorKind::Interrupted.into());
        }
        if self.reads.load(Ordering::SeqCst) >= self.fail_from {
            return Err(ErrorKind::Other.into());
        }
        self.reads.fetch_add(1, Ordering::SeqCst);
        let count = buf.len().min(3).min(self.text.len());
        let (front, rest) = self.text.split_at(count);
        buf[..count].copy_from_slice(front);
        self.text = rest;
        Ok(count)
    }
}

/// Takes bytes as long as there is room, and then none.
#[derive(Drop)]
pub(crate) struct Narrow {
    taken: Vec<u8>,
    room: usize,
    is_ready: bool,
}

impl Narrow {
    pub(crate) fn with_room(alloc: Global, room: usize) -> Result<Self, NoMemory> {
        Ok(Narrow {
            taken: Vec::with_capacity(alloc, room)?,
            room,
            is_ready: false,
        })
    }

    pub(crate) fn taken(&self) -> &[u8] {
        &self.taken
    }
}

impl Write for Narrow {
    fn write(&mut self, buf: &[u8]) -> io::Result<usize> {
        self.is_ready = !self.is_ready;
        if self.is_ready {
            return Err(ErrorKind::Interrupted.into());
        }
        let count = buf.len().min(3).min(self.room);
        self.taken.extend_from_slice(&buf[..count])?;
        self.room -= count;
        Ok(count)
    }

    fn flush(&mut self) -> io::Result<()> {
        Ok(())
    }
}

//! Bytes written to memory, with puts that fail where a test wants it.
ghost use Rattle.std.specs.Prelude.{◌≡◌};

use crate::{NoMemory, Sink, SinkError};
use std::alloc::Global;
use std::marker::Model;

/// A sink that tells its bytes, and has room for so many.
#[derive(Drop)]
pub struct MemorySink {
    written: Vec<u8>,
    room: usize,
    fail: Vec<u64>,
    calls: u64,
    faults: u64,
}

impl Model for MemorySink {
    ghost use Rattle.std.specs.Prelude.{◌≤◌, vec_len};
    ghost use Rattle.std.specs.Vec.{vec_capacity};
    ghost use Rattle.io_port.specs.MemorySink.{SinkState};

    ghost Value = { SinkState };

    ghost view = { λ s. record {
      written = s.written.items;
      room = s.room;
      fail = s.fail.items;
      calls = s.calls;
      faults = s.faults;
    } };

    ghost invariant = { λ s. (vec_len s.written ≤ s.room) × (s.room ≤ vec_capacity s.written) };
}

impl MemorySink {
    ghost use Rattle.std.specs.Prelude.{◌≡◌, IfOk};
    ghost use Rattle.io_port.specs.MemorySink.{new_sink};

    /// An empty sink with this room. The puts with the numbers in `fail`, from 0 on, are to fail.
    pub fn with_room(alloc: Global, room: usize, fail: Vec<u64>) -> Result<Self, NoMemory>
        ensures { IfOk result (λ sink. sink ≡ new_sink room fail.items) }
    {
        let written = Vec::with_capacity(alloc, room)?;
        Ok(MemorySink {
            written,
            room,
            fail,
            calls: 0,
            faults: 0,
        })
    }

    /// The bytes so far.
    pub fn written(&self) -> &[u8]
        ensures { result.now ≡ self.now.written }
    {
        &self.written
    }
}

impl Sink for MemorySink {
    ghost use Rattle.std.specs.Prelude.{◌≡◌, ◌≤◌, Some, OnOk, OnErr};
    ghost use Rattle.io_port.specs.MemorySink.{after_put, after_failure, IsDue};

    ghost written = { λ s. Some s.written };

    ghost faults = { λ s. s.faults };

    /// A put fails where its number is listed or the bytes don't fit, and then writes nothing.
    fn put(&mut self, bytes: &[u8]) -> Result<(), SinkError>
        ensures ok { OnOk result (self.new ≡ after_put self.old bytes.now) }
        ensures not_due { OnOk result (IsDue self.old bytes.now → ⊥) }

        ensures err { OnErr result (self.new ≡ after_failure self.old) }
        ensures due { OnErr result (IsDue self.old bytes.now) }

        ensures kept { self.old.faults ≤ self.new.faults }
    {
        let number = self.calls;
        self.calls = number.saturating_add(1);
        if self.fail.contains(&number) || bytes.len() > self.room - self.written.len() {
            self.faults = self.faults.saturating_add(1);
            return Err(SinkError::Failed);
        }
        self.written.extend_from_slice(bytes).unwrap();
        Ok(())
    }
}

//! Bytes written to a writer in blocks, as to the standard output.
ghost use Rattle.std.specs.Prelude.{◌≡◌};

use crate::streams::{finish_writer, write_whole};
use crate::{NoMemory, Sink, SinkError};
use std::alloc::Global;
use std::io::{BufWriter, Write};
use std::marker::Model;

// How many bytes are kept back before they are written.
const BLOCK: usize = 65_536;

/// A sink over a writer that keeps up to a block of bytes back. It can't be let go of: `finish`
/// gives the writer what is left, and says whether it took it.
pub struct OutSink<W: Write + Drop> {
    out: BufWriter<W>,
    faults: u64,
}

impl<W: Write + Drop> Model for OutSink<W> {
    ghost use Rattle.std.specs.Io.Buffered.{writer_contents};
    ghost use Rattle.io_port.specs.OutSink.{OutState};

    ghost Value = { OutState };

    ghost view = { λ s. record { told = writer_contents W.contents s.out; faults = s.faults } };
}

impl<W: Write + Drop> OutSink<W> {
    ghost use Rattle.std.specs.Prelude.{◌≡◌, IfOk};
    ghost use Rattle.std.specs.Io.KnownBytes.{Keeps};

    /// A sink over this writer. It writes nothing yet.
    pub fn new(alloc: Global, writer: W) -> Result<Self, NoMemory>
        ensures told { IfOk result (λ sink. Keeps (W.contents writer) sink.told) }
        ensures faults { IfOk result (λ sink. sink.faults ≡ 0) }
    {
        match BufWriter::with_capacity(alloc, BLOCK, writer) {
            Ok(out) => Ok(OutSink { out, faults: 0 }),
            Err(_) => Err(NoMemory),
        }
    }

    /// Writes what was kept back, and gives the writer, which then has all that was put.
    pub fn finish(self) -> Result<W, SinkError>
        ensures ok { IfOk result (λ writer. Keeps self.told (W.contents writer)) }
    {
        let OutSink { out, faults: _ } = self;
        finish_writer(out)
    }
}

impl<W: Write + Drop> Sink for OutSink<W> {
    ghost use Rattle.std.specs.Prelude.{◌≤◌, None, OnOk, OnErr};
    ghost use Rattle.std.specs.Io.KnownBytes.{Appends};
    ghost use Rattle.io_port.specs.Faults.{ShowsFault};
    ghost use Rattle.io_port.specs.Streams.{AppendsSome};

    ghost written = { λ _. None };

    ghost faults = { λ s. s.faults };

    /// A write that fails, or takes none of what is left, fails the put that made it, and what was
    /// kept back then stays so.
    fn put(&mut self, bytes: &[u8]) -> Result<(), SinkError>
        ensures ok { OnOk result (Appends self.old.told self.new.told bytes.now) }
        ensures err { OnErr result (AppendsSome self.old.told self.new.told bytes.now) }
        ensures failed { OnErr result (ShowsFault self.old.faults self.new.faults) }
        ensures kept { self.old.faults ≤ self.new.faults }
    {
        match write_whole(&mut self.out, bytes) {
            Ok(()) => Ok(()),
            Err(SinkError::Failed) => {
                self.faults = self.faults.saturating_add(1);
                Err(SinkError::Failed)
            }
        }
    }
}

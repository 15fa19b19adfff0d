//! Where bytes go.
ghost use Rattle.std.specs.Prelude.{ℕ, ◌≤◌, List, Option, OnOk, OnErr};
ghost use Rattle.io_port.specs.Faults.{ShowsFault};
ghost use Rattle.io_port.specs.Sink.{Puts, PutsSome};

/// Why a put didn't take all of its bytes.
#[derive(Clone, Copy, Debug)]
pub enum SinkError {
    Failed,
}

/// Bytes that are written one piece after another.
pub trait Sink {
    /// The bytes written so far, where the sink tells them.
    ghost written: { Self → Option (List ℕ) };

    /// How often a put has failed, up to the last value of a `u64`, at which the count stays.
    ghost faults: { Self → ℕ };

    /// Writes the bytes behind those before. After a failure some first part of them is written.
    fn put(&mut self, bytes: &[u8]) -> Result<(), SinkError>
        ensures ok { OnOk result (Puts (written self.old) (written self.new) bytes.now) }
        ensures err { OnErr result (PutsSome (written self.old) (written self.new) bytes.now) }
        ensures failed { OnErr result (ShowsFault (faults self.old) (faults self.new)) }
        ensures kept { faults self.old ≤ faults self.new };
}

//! Where files come from.
ghost use Rattle.std.specs.Prelude.{◌≡◌, ℕ, ◌≤◌, List, Option, Some, IfOk, IfErr, vec_len};
ghost use Rattle.io_port.specs.Faults.{ShowsFault};
ghost use Rattle.io_port.specs.Shelf.{Files, IsFileOf, IsTooLong, OnFailed, UnlessFailed};
ghost use Rattle.io_port.specs.declared.shelf.ShelfError.TheVariants.{NoMemory};

use std::alloc::{AllocError, AllocFailed, Global};

/// Why a load gave no bytes.
#[derive(Clone, Copy, Debug, PartialEq, Eq)]
pub enum ShelfError {
    /// The file couldn't be read to its end, or isn't there.
    Failed,
    /// The file has more bytes than this limit.
    TooLong(u64),
    NoMemory,
}

impl From<AllocError> for ShelfError {
    ghost from_gives = { λ _ e. e ≡ NoMemory };

    fn from(_: AllocError) -> Self {
        ShelfError::NoMemory
    }
}

impl<T: Drop> From<AllocFailed<T>> for ShelfError {
    ghost from_gives = { λ _ e. e ≡ NoMemory };

    fn from(_: AllocFailed<T>) -> Self {
        ShelfError::NoMemory
    }
}

/// Files that are loaded whole, by name.
pub trait Shelf {
    /// The bytes of each name, where the shelf tells them.
    ghost holds: { Self → Option Files };

    /// How often a load has failed, up to the last value of a `u64`, at which the count stays.
    ghost faults: { Self → ℕ };

    /// The name of the load that failed last, if any did.
    ghost failed: { Self → Option (List ℕ) };

    /// All bytes of the file of that name, if they are no more than the limit.
    fn load(&mut self, alloc: Global, name: &str, limit: u64) -> Result<Vec<u8>, ShelfError>
        ensures ok { IfOk result (λ bytes. IsFileOf (holds self.old) name.now bytes.items) }
        ensures within { IfOk result (λ bytes. vec_len bytes ≤ limit) }

        // By the two clauses above a longer file is never `Ok`.
        ensures too_long { IfErr result (IsTooLong (holds self.old) name.now limit) }

        // A failure has a cause and names the file. No other answer changes what is told of them.
        ensures failed { OnFailed result (ShowsFault (faults self.old) (faults self.new)
            × (failed self.new ≡ Some name.now)) }
        ensures others { UnlessFailed result
            ((faults self.new ≡ faults self.old) × (failed self.new ≡ failed self.old)) }

        ensures kept { (holds self.new ≡ holds self.old) × (faults self.old ≤ faults self.new) };
}

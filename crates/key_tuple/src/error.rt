//! What a constructor refuses.
use std::alloc::{AllocError, AllocFailed};

/// There was no memory.
#[derive(Debug, Clone, Copy)]
pub struct NoMemory;

impl From<AllocError> for NoMemory {
    fn from(_refused: AllocError) -> NoMemory {
        NoMemory
    }
}

impl<T: Drop> From<AllocFailed<T>> for NoMemory {
    fn from(_refused: AllocFailed<T>) -> NoMemory {
        NoMemory
    }
}

/// Why fields make no tuple or key, or bytes no value. The refusals are judged in this order.
#[derive(Debug, Clone, Copy, PartialEq, Eq)]
pub enum KeyError {
    /// More fields than a key may have: their number.
    TooManyFields(usize),
    /// More bytes together than the limit: their number.
    TooLong(usize),
    /// There was no memory.
    NoMemory,
}

impl From<AllocError> for KeyError {
    ghost use Rattle.std.specs.Prelude.{◌≡◌};
    ghost use Rattle.key_tuple.specs.declared.error.KeyError.TheVariants as kind;

    ghost from_gives = { λ _ e. e ≡ kind.NoMemory };

    fn from(_refused: AllocError) -> KeyError {
        KeyError::NoMemory
    }
}

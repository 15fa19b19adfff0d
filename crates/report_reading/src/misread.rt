//! Why a line isn't read.
use key_tuple::NoMemory;
use script::Refusal;
use std::alloc::{AllocError, AllocFailed};

/// Why a line isn't read.
#[derive(Clone, Copy)]
pub enum Misread {
    /// The next line can't stand there.
    BadLine,
    /// There was no memory.
    NoMemory,
}

impl From<Refusal> for Misread {
    ghost use Rattle.std.specs.Prelude.{◌≡◌};
    ghost use Rattle.report_reading.specs.Refusals.{misread_of};

    ghost from_gives = { λ r e. e ≡ misread_of r };

    fn from(refusal: Refusal) -> Misread {
        match refusal {
            Refusal::Flawed(_) => Misread::BadLine,
            Refusal::NoMemory => Misread::NoMemory,
        }
    }
}

impl From<NoMemory> for Misread {
    ghost use Rattle.std.specs.Prelude.{◌≡◌};
    ghost use Rattle.report_reading.specs.declared.misread.Misread.TheVariants as misread;

    ghost from_gives = { λ _ e. e ≡ misread.NoMemory };

    fn from(_refused: NoMemory) -> Misread {
        Misread::NoMemory
    }
}

impl From<AllocError> for Misread {
    ghost use Rattle.std.specs.Prelude.{◌≡◌};
    ghost use Rattle.report_reading.specs.declared.misread.Misread.TheVariants as misread;

    ghost from_gives = { λ _ e. e ≡ misread.NoMemory };

    fn from(_refused: AllocError) -> Misread {
        Misread::NoMemory
    }
}

impl<T: Drop> From<AllocFailed<T>> for Misread {
    ghost use Rattle.std.specs.Prelude.{◌≡◌};
    ghost use Rattle.report_reading.specs.declared.misread.Misread.TheVariants as misread;

    ghost from_gives = { λ _ e. e ≡ misread.NoMemory };

    fn from(_refused: AllocFailed<T>) -> Misread {
        Misread::NoMemory
    }
}

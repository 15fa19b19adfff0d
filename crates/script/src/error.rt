//! Why a file isn't read.
ghost use Rattle.std.specs.Prelude.{◌≡◌};
ghost use Rattle.script.specs.Steps.{error_at};

use std::alloc::{AllocError, AllocFailed};

/// What is wrong with a line, whichever its number.
#[derive(Debug, Clone, Copy, PartialEq, Eq)]
pub enum Flaw {
    /// It has none of the forms.
    BadLine,
    /// The word in the index's place has the form of a name, and isn't one of the schema's.
    UnknownIndex,
    /// All else is right, and a key or a value is too long.
    TooLong,
}

/// Why a file isn't read.
#[derive(Debug, Clone, Copy, PartialEq, Eq)]
pub enum ScriptError {
    /// The first line that isn't in the grammar, and what is wrong with it.
    Flawed { line: u32, flaw: Flaw },
    /// There was no memory.
    NoMemory,
}

/// Why a line isn't read.
#[derive(Clone, Copy)]
pub enum Refusal {
    /// It isn't in the grammar.
    Flawed(Flaw),
    /// There was no memory.
    NoMemory,
}

impl Refusal {
    /// The error that it is on the line with this number.
    pub fn at(self, line: u32) -> ScriptError
        ensures { result ≡ error_at line self }
    {
        match self {
            Refusal::Flawed(flaw) => ScriptError::Flawed { line, flaw },
            Refusal::NoMemory => ScriptError::NoMemory,
        }
    }
}

impl From<Flaw> for Refusal {
    ghost use Rattle.script.specs.declared.error.Refusal.TheVariants as refusal;

    ghost from_gives = { λ f e. e ≡ refusal.Flawed f };

    fn from(flaw: Flaw) -> Refusal {
        Refusal::Flawed(flaw)
    }
}

impl From<AllocError> for Refusal {
    ghost use Rattle.script.specs.declared.error.Refusal.TheVariants as refusal;

    ghost from_gives = { λ _ e. e ≡ refusal.NoMemory };

    fn from(_refused: AllocError) -> Refusal {
        Refusal::NoMemory
    }
}

impl<T: Drop> From<AllocFailed<T>> for Refusal {
    ghost use Rattle.script.specs.declared.error.Refusal.TheVariants as refusal;

    ghost from_gives = { λ _ e. e ≡ refusal.NoMemory };

    fn from(_refused: AllocFailed<T>) -> Refusal {
        Refusal::NoMemory
    }
}

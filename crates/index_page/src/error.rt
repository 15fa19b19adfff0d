//! Why a row isn't taken.
use key_tuple::NoMemory;

/// What `insert`, `insert_at` and `set` refuse: first a row that has no room, then one that no gap
/// takes. Both are judged before any memory is asked for.
#[derive(Debug, Clone, Copy, PartialEq, Eq)]
pub enum PageError {
    /// The row needs more than the page has free.
    PageFull { need: u16, free: u16 },
    /// As much is free, and no gap takes the record: `run` is what is left behind all records. A page
    /// of this form never gives it.
    Scattered { need: u16, run: u16 },
    /// There was no memory.
    NoMemory,
}

impl From<NoMemory> for PageError {
    ghost use Rattle.std.specs.Prelude.{◌≡◌};
    ghost use Rattle.index_page.specs.declared.error.PageError.TheVariants as kind;

    ghost from_gives = { λ _ e. e ≡ kind.NoMemory };

    fn from(_refused: NoMemory) -> PageError {
        PageError::NoMemory
    }
}

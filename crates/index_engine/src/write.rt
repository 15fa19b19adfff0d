//! The two writes of a row.
ghost use Rattle.std.specs.Prelude.{◌≡◌};
ghost use Rattle.index_engine.specs.Writes.{mode_of_write};

use key_tuple::Mode;

/// Whether a write puts a new row in, or sets the value of one that is there.
#[derive(Clone, Copy)]
pub(crate) enum Write {
    Put,
    Set,
}

impl Write {
    /// The mode that the write searches its leaf with: a put looks for the row before its own.
    pub(crate) fn mode(self) -> Mode
        ensures { result ≡ mode_of_write self }
    {
        match self {
            Write::Put => Mode::Le,
            Write::Set => Mode::Ge,
        }
    }
}

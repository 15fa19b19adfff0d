//! How the program ends.
ghost use Rattle.std.specs.Prelude.{◌≡◌};
ghost use Rattle.ahi_cli.specs.Numbers.{number_of};

/// How a run ends.
#[derive(Clone, Copy)]
pub enum Status {
    /// The lanes were read to their end and the report was put whole.
    Done,
    /// A file isn't in its grammar.
    Script,
    /// The words aren't accepted.
    Usage,
    /// A file couldn't be read.
    ShelfFault,
    /// The output didn't take a line.
    SinkFault,
    /// The files are too long.
    TooLarge,
    /// There was no memory.
    NoMemory,
}

impl Status {
    /// The exit status that it ends the program with.
    pub fn number(self) -> u8
        ensures { result ≡ number_of self }
    {
        match self {
            Status::Done => 0,
            Status::Script => 1,
            Status::Usage => 2,
            Status::ShelfFault => 3,
            Status::SinkFault => 4,
            Status::TooLarge => 5,
            Status::NoMemory => 6,
        }
    }
}

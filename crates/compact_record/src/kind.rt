//! What a record is.
ghost use Rattle.std.specs.Prelude.{◌≡◌};
ghost use Rattle.compact_record.specs.Kind.{status_bits, info_bits, kind_with};

/// What a record is.
#[derive(Clone, Copy)]
pub enum RecordKind {
    /// A row: its tail is a value, whose length is written.
    Row,
    /// A pointer: its tail is a child page's number, whose length is not written.
    Pointer,
    /// The leftmost pointer of a level.
    LeftmostPointer,
}

impl RecordKind {
    /// What the head says of a row or a pointer.
    pub(crate) fn status(self) -> u16
        ensures { result ≡ status_bits self }
    {
        match self {
            RecordKind::Row => 0,
            RecordKind::Pointer | RecordKind::LeftmostPointer => 1,
        }
    }

    /// What the head says of the leftmost pointer.
    pub(crate) fn info(self) -> u8
        ensures { result ≡ info_bits self }
    {
        match self {
            RecordKind::Row | RecordKind::Pointer => 0,
            RecordKind::LeftmostPointer => 1,
        }
    }

    /// The kind of which the head says so.
    pub(crate) fn with(status: u16, info: u8) -> RecordKind
        ensures { result ≡ kind_with status info }
    {
        if status == 0 {
            RecordKind::Row
        } else if info == 0 {
            RecordKind::Pointer
        } else {
            RecordKind::LeftmostPointer
        }
    }
}

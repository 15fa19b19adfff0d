//! Modes of a search, and figures of an agreement.
ghost use Rattle.std.specs.Prelude.{◌≡◌};

/// Which row a search asks for.
#[derive(Clone, Copy, PartialEq, Eq)]
pub enum Mode {
    /// The first row that isn't below the tuple.
    Ge,
    /// The first row that is above the tuple.
    G,
    /// The last row that isn't above the tuple.
    Le,
    /// The last row that is below the tuple.
    L,
}

/// A prefix of a key: whole fields, then first bytes of the next field; and which end of a group of
/// rows with one prefix is meant.
#[derive(Clone, Copy, PartialEq, Eq)]
pub struct Params {
    /// Whole fields.
    pub fields: u8,
    /// First bytes of the field after them.
    pub bytes: u16,
    /// The first row of a group, else the last.
    pub left: bool,
}

/// How far a tuple and a key agree.
#[derive(Clone, Copy, PartialEq, Eq)]
pub struct Match {
    /// Equal first fields.
    pub fields: u8,
    /// Equal first bytes of the field after them.
    pub bytes: u16,
}

impl Params {
    ghost use Rattle.key_tuple.specs.Fold.{asked_fields};

    /// How many fields a row needs for such a prefix.
    pub fn asked_fields(&self) -> u16
        ensures { result ≡ asked_fields self.now }
    {
        u16::from(self.fields) + if self.bytes == 0 { 0 } else { 1 }
    }
}

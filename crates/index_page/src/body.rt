//! What a row carries beside its key.
ghost use Rattle.std.specs.Prelude.{◌≡◌};
ghost use Rattle.index_page.specs.Rows.{body_by};
ghost use Rattle.index_page.specs.Page.{HasShortValue};
ghost use Rattle.index_page.specs.Store.{beside_by};

use key_tuple::Value;

/// What a new row is to carry, borrowed.
#[derive(Clone, Copy)]
pub enum Body<'a> {
    /// On level 0: a value.
    Value(&'a Value),
    /// On a higher level: the number of a child page.
    Child(u32),
}

/// The same, borrowed from wherever it stands.
#[derive(Clone, Copy)]
pub(crate) enum Beside<'a> {
    /// A value's bytes.
    Value(&'a [u8]),
    /// The number of a child page.
    Child(u32),
}

impl<'a> Body<'a> {
    /// What it says, in bytes.
    pub(crate) fn beside(self) -> Beside<'a>
        ensures body { beside_by result ≡ body_by self.entry }
        ensures short { HasShortValue (body_by self.entry) }
    {
        match self {
            Body::Value(value) => Beside::Value(value.as_bytes()),
            Body::Child(number) => Beside::Child(number),
        }
    }
}

//! Fields that are lent.
ghost use Rattle.std.specs.Prelude.{◌≡◌, ◌<◌, ◌≤◌, length};
ghost use Rattle.key_tuple.specs.Limits.{FIELD_ROOM};
ghost use Rattle.key_tuple.specs.Parts.{parts, RiseTo};

use crate::buffer::part;
use crate::fields::Fields;
use std::marker::Model;

/// Fields that lie one after another in lent bytes: at most 4, and below 65,536 bytes together.
#[derive(Drop)]
pub struct LentFields<'a> {
    bytes: &'a [u8],
    ends: &'a [u16],
}

impl<'a> Model for LentFields<'a> {
    ghost use Rattle.key_tuple.specs.Order.{FieldList};
    ghost use Rattle.key_tuple.specs.Parts.{parts};

    ghost Value = { FieldList };

    ghost view = { λ f. parts f.bytes.now 0 f.ends.now };

    ghost use Rattle.key_tuple.specs.Buffer.{IsLent};

    ghost invariant = { IsLent };
}

impl<'a> LentFields<'a> {
    /// The fields of these bytes that end at these offsets.
    pub fn new(bytes: &'a [u8], ends: &'a [u16]) -> LentFields<'a>
        requires few { length ends.now ≤ FIELD_ROOM }
        requires short { length bytes.now < 65536 }
        requires rise { RiseTo 0 ends.now (length bytes.now) }
        ensures { result ≡ parts bytes.now 0 ends.now }
    {
        LentFields { bytes, ends }
    }
}

impl<'a> Fields for LentFields<'a> {
    ghost fields_of = { λ f. f };

    fn count(&self) -> u8 {
        self.ends.len() as u8
    }

    fn field(&self, i: u8) -> &[u8] {
        part(self.bytes, self.ends, usize::from(i))
    }
}

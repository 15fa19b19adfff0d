//! How far a tuple agrees with a key, in one number.
ghost use Rattle.std.specs.Prelude.{◌≡◌, ◌<◌, true};
ghost use Rattle.page_search.specs.Agreeing.{agreed, lesser_match};

use key_tuple::Match;

/// How far a tuple agrees with a key. The lesser number is the lesser agreement.
#[derive(Clone, Copy)]
pub(crate) struct Agreement {
    /// The equal fields times 65,536, and the equal bytes of the field after them.
    pub(crate) packed: u32,
}

impl Agreement {
    /// So many fields, and so many bytes of the field after them.
    #[inline(always)]
    pub(crate) fn new(fields: u8, bytes: u16) -> Agreement
        ensures fields { (agreed result).fields ≡ fields }
        ensures bytes { (agreed result).bytes ≡ bytes }
    {
        Agreement {
            packed: u32::from(fields) * 65_536 + u32::from(bytes),
        }
    }

    /// Whether no field is known to be equal.
    #[inline(always)]
    pub(crate) fn is_in_first(self) -> bool
        ensures { result ≡ true → (agreed self).fields ≡ 0 }
    {
        self.packed < 65_536
    }

    /// The equal bytes of the field after those that are equal.
    #[inline(always)]
    pub(crate) fn bytes(self) -> u16
        ensures { result ≡ (agreed self).bytes }
    {
        (self.packed % 65_536) as u16
    }

    /// The same as fields and bytes.
    #[inline(always)]
    pub(crate) fn figures(self) -> Match
        requires { (agreed self).fields < 256 }
        ensures { result ≡ agreed self }
    {
        Match {
            fields: (self.packed / 65_536) as u8,
            bytes: (self.packed % 65_536) as u16,
        }
    }
}

/// The lesser of two agreements.
#[inline(always)]
pub(crate) fn lesser(low: Agreement, up: Agreement) -> Agreement
    ensures { agreed result ≡ lesser_match (agreed low) (agreed up) }
{
    if low.packed < up.packed { low } else { up }
}

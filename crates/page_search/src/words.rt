//! Bytes compared eight at a time.
ghost use Rattle.std.specs.Prelude.{◌≡◌, ◌≢◌, ℕ, ◌+◌, ◌/◌, ◌≤◌, ◌<◌, bit_xor, length, drop, slice_index};
ghost use Rattle.std.specs.Int.{w64, leading_zeros};
ghost use Rattle.byteorder.specs.Endian.{big_number};
ghost use Rattle.key_tuple.specs.Figures.{equal_bytes};

use byteorder::{BigEndian, ByteOrder};

/// How many bytes are compared at once.
pub(crate) const WORD: usize = 8;

/// Where the first words from `start` on are that differ, or `last`.
#[inline(always)]
pub(crate) fn first_apart(left: &[u8], right: &[u8], start: usize, last: usize) -> usize
    requires left { last + WORD ≤ length left.now }
    requires right { last + WORD ≤ length right.now }
    requires start { start ≤ equal_bytes left.now right.now }
    ensures within { result ≤ last }
    ensures equal { result ≤ equal_bytes left.now right.now }
    ensures apart { result < last
        → big_number WORD (drop result left.now) ≢ big_number WORD (drop result right.now) }
{
    let mut at = start;
    while at < last {
        if word(left, at) != word(right, at) {
            return at;
        }
        at += WORD;
    }
    last
}

/// The number in the eight bytes from there on, the most significant first.
#[inline(always)]
pub(crate) fn word(bytes: &[u8], at: usize) -> u64
    requires { at + WORD ≤ length bytes.now }
    ensures number { result ≡ big_number WORD (drop at bytes.now) }
    ensures bytes { (i : ℕ) → slice_index bytes.now i < 256 }
{
    BigEndian::read_u64(&bytes[at..])
}

/// How many first bytes of two words are equal.
#[inline(always)]
pub(crate) fn equal_in(left: u64, right: u64) -> usize
    ensures { result ≡ leading_zeros w64 (bit_xor left right) / 8 }
{
    (left ^ right).leading_zeros() as usize / 8
}

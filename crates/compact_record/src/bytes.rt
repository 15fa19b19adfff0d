//! Numbers in a page's bytes.

ghost use Rattle.std.specs.Prelude.{◌≡◌, ◌+◌, ◌≤◌, length, slice_range};
ghost use Rattle.compact_record.specs.Bytes.{u16_at, SpellsAt, SameOutside};

use byteorder::{BigEndian, ByteOrder};

pub fn get_u16(bytes: &[u8], at: usize) -> u16
    requires { at + 2 ≤ length bytes.now }
    ensures { result ≡ u16_at bytes.now at }
{
    BigEndian::read_u16(&bytes[at..])
}

pub fn put_u16(bytes: &mut [u8], at: usize, value: u16)
    requires { at + 2 ≤ length bytes.old }
    ensures value { u16_at bytes.new at ≡ value }
    ensures kept { SameOutside bytes.old bytes.new at (at + 2) }
{
    BigEndian::write_u16(&mut bytes[at..], value);
}

pub fn put_bytes(bytes: &mut [u8], at: usize, part: &[u8])
    requires { at + length part.now ≤ length bytes.old }
    ensures spells { SpellsAt bytes.new at part.now }
    ensures kept { SameOutside bytes.old bytes.new at (at + length part.now) }
{
    bytes[at..at + part.len()].copy_from_slice(part);
}

/// So many bytes from `at` on.
pub fn get_bytes(bytes: &[u8], at: usize, len: usize) -> &[u8]
    requires { at + len ≤ length bytes.now }
    ensures { result.now ≡ slice_range bytes.now at (at + len) }
{
    &bytes[at..at + len]
}

//! The fold of a prefix: the 64-bit FNV-1a hash of its bytes, cut to the low bits.
ghost use Rattle.std.specs.Prelude.{◌≡◌, ◌≤◌, ◌<◌, ◌%◌, ◌^◌, length, take, fold, flat_map};
ghost use Rattle.key_tuple.specs.Fold.{hash_byte, with_length, fold_of, asked_fields};

use crate::fields::Fields;
use crate::mode::Params;

/// The basis of 64-bit FNV-1a.
const BASIS: u64 = 0xcbf2_9ce4_8422_2325;

/// The prime of 64-bit FNV-1a.
const PRIME: u64 = 0x100_0000_01b3;

/// The fold of a prefix of the fields of a row of that index, cut to its low bits. There have to be
/// as many fields as [`Params::asked_fields`] says. The parameters' side plays no part.
pub fn fold<A: Fields>(index: u32, fields: &A, params: &Params, bits: u8) -> u64
    requires asked { asked_fields params.now ≤ length (A.fields_of fields.now) }
    requires some { 1 ≤ bits }
    requires fit { bits ≤ 64 }
    ensures { result ≡ fold_of index (A.fields_of fields.now) params.now bits }
{
    let start = hash_bytes(BASIS, &index.to_be_bytes());
    let whole = hash_fields(start, fields, params.fields);
    let hash = if params.bytes == 0 {
        whole
    } else {
        hash_bytes(
            whole,
            first_bytes(fields.field(params.fields), params.bytes),
        )
    };
    low_bits(hash, bits)
}

/// The hash after so many whole fields.
fn hash_fields<A: Fields>(start: u64, fields: &A, count: u8) -> u64
    requires { count ≤ length (A.fields_of fields.now) }
    ensures { result
        ≡ fold hash_byte start (flat_map with_length (take count (A.fields_of fields.now))) }
{
    let mut hash = start;
    for i in 0..count {
        let field = fields.field(i);
        hash = hash_bytes(hash, &(field.len() as u16).to_be_bytes());
        hash = hash_bytes(hash, field);
    }
    hash
}

/// The hash after these bytes.
fn hash_bytes(start: u64, bytes: &[u8]) -> u64
    ensures { result ≡ fold hash_byte start bytes.now }
{
    let mut hash = start;
    for byte in bytes {
        hash = (hash ^ u64::from(*byte)).wrapping_mul(PRIME);
    }
    hash
}

/// The first so many bytes, or all where there are fewer.
fn first_bytes(field: &[u8], count: u16) -> &[u8]
    ensures { result.now ≡ take count field.now }
{
    &field[..field.len().min(usize::from(count))]
}

/// The low bits.
fn low_bits(hash: u64, bits: u8) -> u64
    requires { bits ≤ 64 }
    ensures { result ≡ hash % 2 ^ bits }
{
    if bits == 64 { hash } else { hash % (1 << bits) }
}

//! The lengths that stand before a record's head.
ghost use Rattle.std.specs.Prelude.{◌≡◌, ◌+◌, ◌≤◌, ◌<◌, ℕ, length, All};
ghost use Rattle.compact_record.specs.Bytes.{PutsPart};
ghost use Rattle.compact_record.specs.Record.{length_bytes, lengths_bytes};
ghost use Rattle.compact_record.specs.Lengths.{EndsLength};

use crate::{LENGTH_LIMIT, MAX_SHORT_LENGTH};
use key_tuple::Fields;

/// Writes one length, and answers where it ends.
pub(crate) fn put_length(page: &mut [u8], at: usize, len: usize) -> usize
    requires room { at + length (length_bytes len) ≤ length page.old }
    requires small { len < LENGTH_LIMIT }
    ensures { PutsPart page.old page.new (length_bytes len) at result }
{
    if len > MAX_SHORT_LENGTH {
        page[at] = (len % 256) as u8;
        page[at + 1] = 128 + (len / 256) as u8;
        at + 2
    } else {
        page[at] = len as u8;
        at + 1
    }
}

/// Writes the lengths of the key's fields, the first one's last, and answers where they end.
pub(crate) fn put_key_lengths<A: Fields>(page: &mut [u8], start: usize, key: &A) -> usize
    requires room { start + length (lengths_bytes (A.fields_of key.now)) ≤ length page.old }
    requires small { All (λ field. length field < LENGTH_LIMIT) (A.fields_of key.now) }
    ensures { PutsPart page.old page.new (lengths_bytes (A.fields_of key.now)) start result }
{
    let mut at = start;
    for i in (0..key.count()).rev() {
        at = put_length(page, at, key.field(i).len());
    }
    at
}

/// The length that ends at `top`.
pub(crate) fn get_length(page: &[u8], top: usize) -> usize
    requires room { top ≤ length page.now }
    requires there { (n : ℕ) × EndsLength page.now n top }
    ensures { (n : ℕ) → EndsLength page.now n top → result ≡ n }
{
    let last = usize::from(page[top - 1]);
    if last > MAX_SHORT_LENGTH {
        (last - 128) * 256 + usize::from(page[top - 2])
    } else {
        last
    }
}

/// How many bytes one length takes.
pub(crate) fn length_size(len: usize) -> usize
    ensures { result ≡ length (length_bytes len) }
{
    if len > MAX_SHORT_LENGTH { 2 } else { 1 }
}

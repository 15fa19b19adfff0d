//! Keys that are made of a tuple: it alone, the first one above it, and the last one that begins
//! with it. Each has new memory.
ghost use Rattle.std.specs.Prelude.{◌≡◌, ◌+◌, ◌<◌, ◌≤◌, [], ◌∷◌, ◌++◌, length, IfOk};
ghost use Rattle.key_tuple.specs.Limits.{IsWithinLimits};
ghost use Rattle.key_tuple.specs.declared.TheConstants.{MAX_KEY_BYTES};
ghost use Rattle.key_tuple.specs.Order.{byte_count};
ghost use Rattle.map_ranges.specs.Bounds.{with_last, lengthened, padded};

use key_tuple::{Fields, Key, MAX_FIELDS, NoMemory, Tuple};
use std::alloc::Global;

/// A tuple with these bytes in the place of its last field.
#[derive(Drop)]
struct WithLast<'a> {
    tuple: &'a Tuple,
    last: &'a [u8],
    ghost short: { length last.now < 65536 },
}

impl<'a> Fields for WithLast<'a> {
    ghost fields_of = { λ r. with_last r.tuple.now.fields r.last.now };

    fn count(&self) -> u8 {
        self.tuple.count()
    }

    fn field(&self, i: u8) -> &[u8] {
        let last = self.tuple.count() - 1;
        if i == last {
            self.last
        } else {
            self.tuple.field(i)
        }
    }
}

/// A tuple with empty fields behind its own, as many as a key may have.
#[derive(Drop)]
struct Padded<'a> {
    tuple: &'a Tuple,
}

impl<'a> Fields for Padded<'a> {
    ghost fields_of = { λ p. padded p.tuple.now.fields };

    fn count(&self) -> u8 {
        self.tuple.is_within_limits();
        MAX_FIELDS
    }

    fn field(&self, i: u8) -> &[u8] {
        if i < self.tuple.count() {
            self.tuple.field(i)
        } else {
            &[]
        }
    }
}

/// The tuple's fields as a key.
pub(crate) fn whole_key(alloc: Global, tuple: &Tuple) -> Result<Key, NoMemory>
    requires { 0 < length tuple.now.fields }
    ensures { IfOk result (λ k. k.tuple ≡ tuple.now.fields) }
{
    tuple.is_within_limits();
    key_of(alloc, tuple)
}

/// The first key after all that begin with the tuple.
pub(crate) fn lengthened_key(alloc: Global, tuple: &Tuple) -> Result<Key, NoMemory>
    requires some { 0 < length tuple.now.fields }
    requires room { byte_count tuple.now.fields < MAX_KEY_BYTES }
    ensures { IfOk result (λ k. k.tuple ≡ lengthened tuple.now.fields) }
{
    tuple.is_within_limits();
    let last = longer(alloc, tuple.field(tuple.count() - 1))?;
    key_of(alloc, &WithLast { tuple, last: &last })
}

/// The last key that begins with a tuple of as many bytes as a key may have.
pub(crate) fn padded_key(alloc: Global, tuple: &Tuple) -> Result<Key, NoMemory>
    ensures { IfOk result (λ k. k.tuple ≡ padded tuple.now.fields) }
{
    tuple.is_within_limits();
    key_of(alloc, &Padded { tuple })
}

fn key_of<A: Fields>(alloc: Global, from: &A) -> Result<Key, NoMemory>
    requires some { 0 < length (A.fields_of from.now) }
    requires limits { IsWithinLimits (A.fields_of from.now) }
    ensures { IfOk result (λ k. k.tuple ≡ A.fields_of from.now) }
{
    let mut key = Key::with_room(alloc, from.count())?;
    key.refill(from);
    Ok(key)
}

/// The bytes with one more, 0.
fn longer(alloc: Global, bytes: &[u8]) -> Result<Vec<u8>, NoMemory>
    ensures { IfOk result (λ v. v.items ≡ bytes.now ++ 0 ∷ []) }
{
    let mut longer = Vec::new(alloc);
    longer.extend_from_slice(bytes)?;
    longer.push(0)?;
    Ok(longer)
}

/// How many bytes the fields have together.
pub(crate) fn byte_count(tuple: &Tuple) -> usize
    ensures { result ≡ byte_count tuple.now.fields }
{
    tuple.is_within_limits();
    let mut total = 0;
    for i in 0..tuple.count() {
        total += tuple.field(i).len();
    }
    total
}

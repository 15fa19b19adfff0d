//! A tuple: the first fields of a key, perhaps none.
ghost use Rattle.std.specs.Prelude.{◌≡◌, ◌≤◌, ◌⊎◌, [], length, map, replicate, IfOk, IfErr, IfSome, Some};
ghost use Rattle.key_tuple.specs.Order.{byte_count};
ghost use Rattle.key_tuple.specs.Limits.{IsWithinLimits, refusal_of, MAX_FIELDS, MAX_KEY_BYTES};
ghost use Rattle.key_tuple.specs.Parts.{parts, RiseTo};

use crate::buffer::FieldBuffer;
use crate::error::KeyError;
use crate::fields::{Blank, Fields};
use crate::order::compare_whole;
use crate::{MAX_FIELDS, MAX_KEY_BYTES};
use std::alloc::{AllocError, Global};
use std::cmp::Ordering;
use std::hash::{Hash, Hasher};
use std::marker::Model;

/// Up to [`MAX_FIELDS`] fields of up to [`MAX_KEY_BYTES`] bytes together, seen as the list of them
/// and the bytes that its buffer takes before it has to grow.
#[derive(Drop)]
pub struct Tuple {
    buffer: FieldBuffer,
}

impl Model for Tuple {
    ghost use Rattle.key_tuple.specs.Parts.{Buffered};
    ghost use Rattle.key_tuple.specs.Limits.{IsWithinLimits};

    ghost Value = { Buffered };

    ghost view = { λ t. t.buffer };

    ghost invariant = { λ t. IsWithinLimits t.buffer.fields };
}

impl Tuple {
    /// The tuple of these fields. Refuses too many fields first, then too many bytes.
    pub fn try_new(alloc: Global, fields: Vec<Vec<u8>>) -> Result<Tuple, KeyError>
        ensures ok { IfOk result (λ t. t.fields ≡ map (λ f. f.items) fields.items) }
        ensures refused { IfSome (refusal_of (map (λ f. f.items) fields.items))
            (λ e. (result ≡ Err e) ⊎ (result ≡ Err KeyError.NoMemory)) }
        ensures cause { IfErr result (λ e. (refusal_of (map (λ f. f.items) fields.items) ≡ Some e)
            ⊎ (e ≡ KeyError.NoMemory)) }
    {
        let count = fields.len();
        if count > usize::from(MAX_FIELDS) {
            return Err(KeyError::TooManyFields(count));
        }
        let total = total_len(&fields).ok_or(KeyError::NoMemory)?;
        if total > MAX_KEY_BYTES {
            return Err(KeyError::TooLong(total));
        }
        let buffer = gather(alloc, &fields, total)?;
        Ok(Tuple { buffer })
    }

    /// The tuple of the fields of these bytes that end at these offsets. Refuses as `try_new` does,
    /// and copies nothing.
    pub fn from_parts(bytes: Vec<u8>, ends: &[usize]) -> Result<Tuple, KeyError>
        requires rise { RiseTo 0 ends.now (length bytes.items) }
        ensures ok { IfOk result (λ t. t.fields ≡ parts bytes.items 0 ends.now) }
        ensures refused { IfSome (refusal_of (parts bytes.items 0 ends.now)) (λ e. result ≡ Err e) }
        ensures cause { IfErr result (λ e. refusal_of (parts bytes.items 0 ends.now) ≡ Some e) }
    {
        if usize::from(MAX_FIELDS) < ends.len() {
            return Err(KeyError::TooManyFields(ends.len()));
        }
        if MAX_KEY_BYTES < bytes.len() {
            return Err(KeyError::TooLong(bytes.len()));
        }
        Ok(Tuple {
            buffer: FieldBuffer::from_parts(bytes, ends),
        })
    }

    /// So many empty fields, with room for the largest key.
    pub(crate) fn with_room(alloc: Global, fields: u8) -> Result<Tuple, AllocError>
        requires { fields ≤ MAX_FIELDS }
        ensures fields { IfOk result (λ t. t.fields ≡ replicate fields []) }
        ensures room { IfOk result (λ t. MAX_KEY_BYTES ≤ t.room) }
    {
        let mut buffer = FieldBuffer::with_capacity(alloc, MAX_KEY_BYTES)?;
        buffer.refill(&Blank { count: fields });
        Ok(Tuple { buffer })
    }

    /// Puts these fields in the place of those before. It takes no memory.
    pub(crate) fn refill<A: Fields>(&mut self, from: &A)
        requires limits { IsWithinLimits (A.fields_of from.now) }
        requires room { MAX_KEY_BYTES ≤ self.old.room }
        ensures fields { self.new.fields ≡ A.fields_of from.now }
        ensures room { self.old.room ≤ self.new.room }
    {
        self.buffer.refill(from);
    }

    /// The tuple is within the limits.
    pub fn is_within_limits(&self)
        ensures { IsWithinLimits self.now.fields }
    {
        let _ = &self.buffer;
    }
}

impl Clone for Tuple {
    ghost is_clone = { λ t c. c.fields ≡ t.fields };

    fn clone(&self) -> Result<Tuple, AllocError> {
        Ok(Tuple {
            buffer: self.buffer.clone()?,
        })
    }
}

impl PartialEq for Tuple {
    ghost use Rattle.std.specs.Ordering.{eq_by_cmp, on};
    ghost use Rattle.std.specs.Cmp.{partial_equiv_from_equiv, on_equiv};
    ghost use Rattle.key_tuple.specs.Order.{key_cmp};
    ghost use Rattle.list_facts.proofs.ByteLists.{byte_lists_equiv};

    ghost eq = { on (λ t. t.fields) (eq_by_cmp key_cmp) };

    ghost laws = { partial_equiv_from_equiv (on_equiv (λ t. t.fields) byte_lists_equiv) };

    fn eq(&self, other: &Tuple) -> bool {
        compare_whole(self, other) == Ordering::Equal
    }
}

impl Eq for Tuple {
    ghost use Rattle.std.specs.Cmp.{on_equiv};
    ghost use Rattle.list_facts.proofs.ByteLists.{byte_lists_equiv};

    ghost laws = { on_equiv (λ t. t.fields) byte_lists_equiv };
}

impl PartialOrd for Tuple {
    ghost use Rattle.std.specs.Prelude.{refl};
    ghost use Rattle.std.specs.Ordering.{as_partial_cmp, on};
    ghost use Rattle.std.specs.Cmp.{partial_order_from_agreeing_total, on_total};
    ghost use Rattle.key_tuple.specs.Order.{key_cmp};
    ghost use Rattle.list_facts.proofs.ByteLists.{byte_lists_total};

    ghost partial_cmp = { as_partial_cmp (on (λ t. t.fields) key_cmp) };

    ghost laws = { partial_order_from_agreeing_total (on (λ t. t.fields) key_cmp)
        (on_total (λ t. t.fields) byte_lists_total) (λ _ _. refl) (λ _ _. refl) };

    fn partial_cmp(&self, other: &Tuple) -> Option<Ordering> {
        Some(compare_whole(self, other))
    }
}

impl Ord for Tuple {
    ghost use Rattle.std.specs.Prelude.{refl};
    ghost use Rattle.std.specs.Ordering.{on};
    ghost use Rattle.std.specs.Cmp.{on_total};
    ghost use Rattle.key_tuple.specs.Order.{key_cmp};
    ghost use Rattle.list_facts.proofs.ByteLists.{byte_lists_total};

    ghost cmp = { on (λ t. t.fields) key_cmp };

    ghost total = { on_total (λ t. t.fields) byte_lists_total };

    ghost matches_partial_cmp = { λ _ _. refl };

    ghost matches_eq = { λ _ _. refl };

    fn cmp(&self, other: &Tuple) -> Ordering {
        compare_whole(self, other)
    }
}

impl Hash for Tuple {
    ghost use Rattle.std.specs.Hash.{on_Alike};
    ghost use Rattle.list_facts.proofs.ByteLists.{byte_lists_alike};
    ghost use Rattle.key_tuple.specs.Hashed.{hash_writes};

    ghost hash_input = { λ t. hash_writes t.fields };

    ghost respects_eq = { (on_Alike (λ t. t.fields) byte_lists_alike).fed };

    fn hash<H: Hasher>(&self, state: &mut H) {
        state.write_usize(usize::from(self.count()));
        for i in 0..self.count() {
            self.field(i).hash(state);
        }
    }
}

impl Fields for Tuple {
    ghost fields_of = { λ t. t.fields };

    fn count(&self) -> u8 {
        self.buffer.count()
    }

    fn field(&self, i: u8) -> &[u8] {
        self.buffer.field(i)
    }
}

/// How many bytes there are together, if a `usize` can say so.
fn total_len(fields: &[Vec<u8>]) -> Option<usize>
    ensures { IfSome result (λ n. n ≡ byte_count (map (λ f. f.items) fields.now)) }
{
    let mut total: usize = 0;
    for field in fields {
        total = total.checked_add(field.len())?;
    }
    Some(total)
}

/// The fields in one buffer of that many bytes.
fn gather(alloc: Global, fields: &[Vec<u8>], total: usize) -> Result<FieldBuffer, AllocError>
    requires few { length fields.now ≤ MAX_FIELDS }
    requires total { total ≡ byte_count (map (λ f. f.items) fields.now) }
    requires short { total ≤ MAX_KEY_BYTES }
    ensures { IfOk result (λ b. b.fields ≡ map (λ f. f.items) fields.now) }
{
    let mut buffer = FieldBuffer::with_capacity(alloc, total)?;
    for field in fields {
        buffer.push(field)?;
    }
    Ok(buffer)
}

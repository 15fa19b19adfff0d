//! A key: a tuple with at least one field.
ghost use Rattle.std.specs.Prelude.{◌≡◌, ◌<◌, ◌≤◌, ◌⊎◌, [], length, map, replicate, IfOk, IfErr, IfSome, Some};
ghost use Rattle.key_tuple.specs.Limits.{MAX_FIELDS, MAX_KEY_BYTES, refusal_of};
ghost use Rattle.key_tuple.specs.Order.{byte_count};
ghost use Rattle.key_tuple.specs.Parts.{parts, RiseTo};

use crate::error::{KeyError, NoMemory};
use crate::fields::Fields;
use crate::order::compare_whole;
use crate::tuple::Tuple;
use std::alloc::{AllocError, Global};
use std::cmp::Ordering;
use std::hash::{Hash, Hasher};
use std::marker::Model;

/// A whole key. It is seen as its fields, `tuple`, and `room`: the number of fields that it was made
/// to be refilled with, 0 for a key that isn't refilled. `room` plays no part in comparisons.
#[derive(Drop)]
pub struct Key {
    tuple: Tuple,
    room: u8,
}

impl Model for Key {
    ghost use Rattle.key_tuple.specs.FieldsWithRoom.{FieldsWithRoom};

    ghost Value = { FieldsWithRoom };

    ghost use Rattle.key_tuple.specs.KeyRoom.{IsKey};

    ghost view = { λ k. record { tuple = k.tuple.fields; room = k.room } };

    ghost invariant = { IsKey };
}

impl Key {
    /// The key of these fields. Refuses too many fields first, then too many bytes.
    pub fn try_new(alloc: Global, fields: Vec<Vec<u8>>) -> Result<Key, KeyError>
        requires { 0 < length fields.items }
        ensures ok { IfOk result (λ k. k.tuple ≡ map (λ f. f.items) fields.items) }
        ensures room { IfOk result (λ k. k.room ≡ 0) }
        ensures refused { IfSome (refusal_of (map (λ f. f.items) fields.items))
            (λ e. (result ≡ Err e) ⊎ (result ≡ Err KeyError.NoMemory)) }
        ensures cause { IfErr result (λ e. (refusal_of (map (λ f. f.items) fields.items) ≡ Some e)
            ⊎ (e ≡ KeyError.NoMemory)) }
    {
        let tuple = Tuple::try_new(alloc, fields)?;
        Ok(Key { tuple, room: 0 })
    }

    /// The key of the fields of these bytes that end at these offsets. Refuses as `try_new` does,
    /// and copies nothing.
    pub fn from_parts(bytes: Vec<u8>, ends: &[usize]) -> Result<Key, KeyError>
        requires some { 0 < length ends.now }
        requires rise { RiseTo 0 ends.now (length bytes.items) }
        ensures ok { IfOk result (λ k. k.tuple ≡ parts bytes.items 0 ends.now) }
        ensures room { IfOk result (λ k. k.room ≡ 0) }
        ensures refused { IfSome (refusal_of (parts bytes.items 0 ends.now)) (λ e. result ≡ Err e) }
        ensures cause { IfErr result (λ e. refusal_of (parts bytes.items 0 ends.now) ≡ Some e) }
    {
        let tuple = Tuple::from_parts(bytes, ends)?;
        Ok(Key { tuple, room: 0 })
    }

    /// A key of so many empty fields, which can be refilled with as many: it has room for the
    /// largest key.
    pub fn with_room(alloc: Global, fields: u8) -> Result<Key, NoMemory>
        requires some { 1 ≤ fields }
        requires few { fields ≤ MAX_FIELDS }
        ensures empty { IfOk result (λ k. k.tuple ≡ replicate fields []) }
        ensures room { IfOk result (λ k. k.room ≡ fields) }
    {
        let tuple = Tuple::with_room(alloc, fields)?;
        Ok(Key {
            tuple,
            room: fields,
        })
    }

    /// Puts these fields in the place of those before, in a key that `with_room` made for as many.
    /// It takes no memory.
    pub fn refill<A: Fields>(&mut self, from: &A)
        requires some { 1 ≤ length (A.fields_of from.now) }
        requires few { length (A.fields_of from.now) ≤ self.old.room }
        requires short { byte_count (A.fields_of from.now) ≤ MAX_KEY_BYTES }
        ensures fields { self.new.tuple ≡ A.fields_of from.now }
        ensures room { self.new.room ≡ self.old.room }
    {
        self.tuple.refill(from);
    }

    /// The key's fields as a tuple.
    pub fn tuple(&self) -> &Tuple
        ensures fields { result.now.fields ≡ self.now.tuple }
        ensures some { 0 < length self.now.tuple }
    {
        &self.tuple
    }
}

impl Clone for Key {
    ghost is_clone = { λ k c. (c.tuple ≡ k.tuple) × (c.room ≡ 0) };

    fn clone(&self) -> Result<Key, AllocError> {
        Ok(Key {
            tuple: self.tuple.clone()?,
            room: 0,
        })
    }
}

impl PartialEq for Key {
    ghost use Rattle.std.specs.Ordering.{eq_by_cmp, on};
    ghost use Rattle.std.specs.Cmp.{partial_equiv_from_equiv, on_equiv};
    ghost use Rattle.key_tuple.specs.Order.{key_cmp};
    ghost use Rattle.list_facts.proofs.ByteLists.{byte_lists_equiv};

    ghost eq = { on (λ k. k.tuple) (eq_by_cmp key_cmp) };

    ghost laws = { partial_equiv_from_equiv (on_equiv (λ k. k.tuple) byte_lists_equiv) };

    fn eq(&self, other: &Key) -> bool {
        compare_whole(self, other) == Ordering::Equal
    }
}

impl Eq for Key {
    ghost use Rattle.std.specs.Cmp.{on_equiv};
    ghost use Rattle.list_facts.proofs.ByteLists.{byte_lists_equiv};

    ghost laws = { on_equiv (λ k. k.tuple) byte_lists_equiv };
}

impl PartialOrd for Key {
    ghost use Rattle.std.specs.Prelude.{refl};
    ghost use Rattle.std.specs.Ordering.{as_partial_cmp, on};
    ghost use Rattle.std.specs.Cmp.{partial_order_from_agreeing_total, on_total};
    ghost use Rattle.key_tuple.specs.Order.{key_cmp};
    ghost use Rattle.list_facts.proofs.ByteLists.{byte_lists_total};

    ghost partial_cmp = { as_partial_cmp (on (λ k. k.tuple) key_cmp) };

    ghost laws = { partial_order_from_agreeing_total (on (λ k. k.tuple) key_cmp)
        (on_total (λ k. k.tuple) byte_lists_total) (λ _ _. refl) (λ _ _. refl) };

    fn partial_cmp(&self, other: &Key) -> Option<Ordering> {
        Some(compare_whole(self, other))
    }
}

impl Ord for Key {
    ghost use Rattle.std.specs.Prelude.{refl};
    ghost use Rattle.std.specs.Ordering.{on};
    ghost use Rattle.std.specs.Cmp.{on_total};
    ghost use Rattle.key_tuple.specs.Order.{key_cmp};
    ghost use Rattle.list_facts.proofs.ByteLists.{byte_lists_total};

    ghost cmp = { on (λ k. k.tuple) key_cmp };

    ghost total = { on_total (λ k. k.tuple) byte_lists_total };

    ghost matches_partial_cmp = { λ _ _. refl };

    ghost matches_eq = { λ _ _. refl };

    fn cmp(&self, other: &Key) -> Ordering {
        compare_whole(self, other)
    }
}

impl Hash for Key {
    ghost use Rattle.std.specs.Hash.{on_Alike};
    ghost use Rattle.list_facts.proofs.ByteLists.{byte_lists_alike};
    ghost use Rattle.key_tuple.specs.Hashed.{hash_writes};

    ghost hash_input = { λ k. hash_writes k.tuple };

    ghost respects_eq = { (on_Alike (λ k. k.tuple) byte_lists_alike).fed };

    fn hash<H: Hasher>(&self, state: &mut H) {
        self.tuple.hash(state);
    }
}

impl Fields for Key {
    ghost fields_of = { λ k. k.tuple };

    fn count(&self) -> u8 {
        self.tuple.count()
    }

    fn field(&self, i: u8) -> &[u8] {
        self.tuple.field(i)
    }
}

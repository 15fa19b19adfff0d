//! Rows at their places.
ghost use Rattle.std.specs.Prelude.{◌≡◌, ◌+◌, ◌≤◌, ◌<◌, [], ◌∷◌, ◌++◌, length, take, drop, Some, None, IfOk, OnOk, OnErr, IsSome, IsOk, slice_get};
ghost use Rattle.std.specs.List.{AllByRecursion, insert, remove};
ghost use Rattle.key_tuple.specs.Limits.{IsWithinLimits};
ghost use Rattle.index_page.specs.declared.TheConstants.{PAGE_ROOM};
ghost use Rattle.index_page.specs.Rows.{Row, placed_row, find_row};
ghost use Rattle.index_page.specs.Page.{PlacesDiffer};
ghost use Rattle.index_page.specs.Store.{beside_by, rows_in, IsStore, IsSpare, Appends, HasValueAt, Rewrites};

use crate::body::Beside;
use crate::heads::Heads;
use crate::places::Places;
use crate::record::Record;
use crate::records::Records;
use crate::spot::Place;
use key_tuple::Fields;
use std::alloc::{AllocError, Global};
use std::marker::Model;

/// Rows in an order that its caller gives them, each at a place that stays. Seen as the list of
/// them.
#[derive(Drop)]
pub(crate) struct Heap {
    alloc: Global,
    slots: Records,
    places: Places,
    heads: Heads,
}

impl Model for Heap {
    ghost use Rattle.std.specs.Prelude.{List};
    ghost use Rattle.index_page.specs.Rows.{Row};
    ghost use Rattle.index_page.specs.Store.{rows_in, IsStore};

    ghost Value = { List Row };

    ghost view = { λ h. rows_in h.slots h.places.live };

    ghost invariant = { λ h. IsStore h.slots h.places };
}

impl Heap {
    pub(crate) fn new(alloc: Global) -> Heap
        ensures { result ≡ [] }
    {
        Heap {
            alloc,
            slots: Records::new(alloc),
            places: Places::new(alloc),
            heads: Heads::new(alloc),
        }
    }

    /// Takes all rows out.
    pub(crate) fn clear(&mut self)
        ensures { self.new ≡ [] }
    {
        self.slots.clear();
        self.places.clear();
        self.heads.clear();
    }

    /// How many rows there are.
    pub(crate) fn len(&self) -> usize
        ensures { result ≡ length self.now }
    {
        self.places.live().len()
    }

    /// The row with that number, from 0.
    pub(crate) fn stored(&self, i: usize) -> (Place, Record<'_>)
        requires { i < length self.now }
        ensures { slice_get self.now i
            ≡ Some (placed_row result.0 result.1.key result.1.body) }
    {
        let place = self.places.live()[i];
        (place, self.slots.get(usize::from(place)))
    }

    /// The number of the row that a search for a tuple looks at first, or so.
    pub(crate) fn likely<A: Fields>(&self, tuple: &A) -> usize {
        self.heads.below(tuple)
    }

    /// The row at that place.
    pub(crate) fn record(&self, place: Place) -> Record<'_>
        requires { IsSome (find_row place self.now) }
        ensures { find_row place self.now ≡ Some (placed_row place result.key result.body) }
    {
        self.slots.get(usize::from(place))
    }

    /// Puts a row before the one with that number, at a place at which none stands.
    pub(crate) fn insert_at<A: Fields>(
        &mut self,
        at: usize,
        key: &A,
        beside: Beside<'_>,
    ) -> Result<Place, AllocError>
        requires at { at ≤ length self.old }
        requires key { IsWithinLimits (A.fields_of key.now) }
        requires room { length self.old ≤ PAGE_ROOM }
        ensures ok { IfOk result (λ place. self.new ≡ insert self.old at
            (placed_row place (A.fields_of key.now) (beside_by beside.entry))) }
        ensures vacant { IfOk result (λ place. find_row place self.old ≡ None) }
        ensures differ { OnOk result (PlacesDiffer self.new) }
        ensures err { OnErr result (self.new ≡ self.old) }
    {
        let place = vacancy(&mut self.slots, &mut self.places)?;
        self.slots.fill(usize::from(place), key, beside)?;
        self.places.claim(at, place)?;
        self.heads.insert(at, key);
        Ok(place)
    }

    /// Writes another value in the row with that number.
    pub(crate) fn rewrite_at(&mut self, at: usize, bytes: &[u8]) -> Result<(), AllocError>
        requires { HasValueAt self.old at }
        ensures ok { OnOk result (Rewrites self.old self.new at bytes.now) }
        ensures in_place { (has : HasValueAt self.old at) →
            length bytes.now ≤ length has.value → IsOk result }
        ensures err { OnErr result (self.new ≡ self.old) }
    {
        let place = self.places.live()[at];
        Ok(self.slots.rewrite(usize::from(place), bytes)?)
    }

    /// Puts the same rows as the others from a number on behind these.
    pub(crate) fn append(&mut self, others: &Heap, first: usize) -> Result<(), AllocError>
        requires first { first ≤ length others.now }
        requires keys { AllByRecursion (λ (x : Row). IsWithinLimits x.key) others.now }
        requires differ { PlacesDiffer self.old }
        requires room { length self.old + length others.now ≤ PAGE_ROOM }
        ensures ok { OnOk result (Appends self.old self.new (drop first others.now)) }
        ensures err { OnErr result (self.new ≡ self.old) }
    {
        let count = self.len();
        for i in 0..others.len() - first {
            let record = others.stored(first + i).1;
            if let Err(e) = self.insert_at(self.len(), &record, record.beside()) {
                self.keep_first(count);
                return Err(e);
            }
        }
        Ok(())
    }

    /// The same rows from a number on, at places of their own.
    pub(crate) fn tail(&self, first: usize) -> Result<Heap, AllocError>
        requires first { first ≤ length self.now }
        requires keys { AllByRecursion (λ (x : Row). IsWithinLimits x.key) self.now }
        requires room { length self.now ≤ PAGE_ROOM }
        ensures { IfOk result (λ tail. Appends [] tail (drop first self.now)) }
    {
        let mut tail = Heap::new(self.alloc);
        tail.append(self, first)?;
        Ok(tail)
    }

    /// Takes out the row with that number.
    pub(crate) fn remove_at(&mut self, at: usize)
        requires { at < length self.old }
        ensures rows { self.new ≡ remove self.old at }
        ensures differ { PlacesDiffer self.new }
    {
        let place = self.places.live()[at];
        self.places.release(at);
        self.heads.remove(at);
        self.slots.blank(usize::from(place));
    }

    /// Takes out all rows but the first ones, so many.
    pub(crate) fn keep_first(&mut self, count: usize)
        requires { count ≤ length self.old }
        ensures { self.new ≡ take count self.old }
    {
        while self.len() > count {
            self.remove_at(self.len() - 1);
        }
    }

    /// The same rows at the same places.
    pub(crate) fn copy(&self) -> Result<Heap, AllocError>
        ensures { IfOk result (λ h. h ≡ self.now) }
    {
        Ok(Heap {
            alloc: self.alloc,
            slots: self.slots.copy()?,
            places: self.places.copy(self.alloc)?,
            heads: self.heads.copy()?,
        })
    }
}

/// A vacant place with a record of nothing: one that is there, or a further one.
fn vacancy(slots: &mut Records, places: &mut Places) -> Result<Place, AllocError>
    requires store { IsStore slots.old places.old }
    requires room { length places.old.live ≤ PAGE_ROOM }
    ensures spare { IfOk result (IsSpare places.new) }
    ensures store { IsStore slots.new places.new }
    ensures live { places.new.live ≡ places.old.live }
    ensures rows { rows_in slots.new places.new.live ≡ rows_in slots.old places.old.live }
{
    if let Some(place) = places.spare() {
        return Ok(place);
    }
    let place = slots.len() as Place;
    slots.add_blank()?;
    if let Err(e) = places.add(place) {
        slots.drop_last();
        return Err(e);
    }
    Ok(place)
}

//! Places in the order of their rows, and vacant ones.
ghost use Rattle.std.specs.Prelude.{◌≡◌, ◌≤◌, ◌<◌, [], ◌∷◌, ◌++◌, length, IfOk, OnOk, OnErr, IfSome, slice_index};
ghost use Rattle.std.specs.List.{insert, remove};
ghost use Rattle.index_page.specs.Store.{IsSpare};

use crate::spot::Place;
use std::alloc::{AllocError, Global};
use std::marker::Model;

/// The places of rows in their order, and the vacant ones. A place becomes vacant without new
/// memory.
#[derive(Drop)]
pub(crate) struct Places {
    live: Vec<Place>,
    free: Vec<Place>,
}

impl Model for Places {
    ghost use Rattle.std.specs.Prelude.{◌+◌, ◌≤◌, length, vec_capacity};
    ghost use Rattle.index_page.specs.Store.{PlaceLists};

    ghost Value = { PlaceLists };

    ghost view = { λ p. record { live = p.live.items; free = p.free.items } };

    ghost invariant = { λ p. length p.live.items + length p.free.items ≤ vec_capacity p.free };
}

impl Places {
    pub(crate) fn new(alloc: Global) -> Places
        ensures { (result.live ≡ []) × (result.free ≡ []) }
    {
        Places {
            live: Vec::new(alloc),
            free: Vec::new(alloc),
        }
    }

    /// The places of rows.
    pub(crate) fn live(&self) -> &[Place]
        ensures { result.now ≡ self.now.live }
    {
        &self.live
    }

    /// The vacant place that is taken next.
    pub(crate) fn spare(&self) -> Option<Place>
        ensures some { IfSome result (IsSpare self.now) }
        ensures none { result ≡ None → self.now.free ≡ [] }
    {
        self.free.last().copied()
    }

    /// Adds a vacant place.
    pub(crate) fn add(&mut self, place: Place) -> Result<(), AllocError>
        ensures live { self.new.live ≡ self.old.live }
        ensures ok { OnOk result (self.new.free ≡ self.old.free ++ place ∷ []) }
        ensures err { OnErr result (self.new.free ≡ self.old.free) }
    {
        self.free.reserve(self.live.len() + 1)?;
        self.free.push_reserved(place);
        Ok(())
    }

    /// Puts the spare place among those of rows.
    pub(crate) fn claim(&mut self, at: usize, place: Place) -> Result<(), AllocError>
        requires at { at ≤ length self.old.live }
        requires spare { IsSpare self.old place }
        ensures live { OnOk result (self.new.live ≡ insert self.old.live at place) }
        ensures free { OnOk result (self.old.free ≡ self.new.free ++ place ∷ []) }
        ensures err { OnErr result (self.new ≡ self.old) }
    {
        self.live.insert(at, place)?;
        let _ = self.free.pop();
        Ok(())
    }

    /// Makes the place of a row vacant.
    pub(crate) fn release(&mut self, at: usize)
        requires { at < length self.old.live }
        ensures live { self.new.live ≡ remove self.old.live at }
        ensures free { self.new.free ≡ self.old.free ++ slice_index self.old.live at ∷ [] }
    {
        let place = self.live.remove(at);
        self.free.push_reserved(place);
    }

    /// Takes all places out.
    pub(crate) fn clear(&mut self)
        ensures { (self.new.live ≡ []) × (self.new.free ≡ []) }
    {
        self.live.clear();
        self.free.clear();
    }

    /// The same places again.
    pub(crate) fn copy(&self, alloc: Global) -> Result<Places, AllocError>
        ensures { IfOk result (λ p. p ≡ self.now) }
    {
        let mut free = Vec::with_capacity(alloc, self.free.capacity())?;
        free.extend_from_slice(&self.free)?;
        Ok(Places {
            live: self.live.clone()?,
            free,
        })
    }
}

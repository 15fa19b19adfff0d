//! Where an object lies: in a box of its own, so that what moves is the box.
ghost use Rattle.std.specs.Prelude.{◌≡◌, Some, None, IfOk};
ghost use Rattle.std.specs.Option.{option_copied_mut};
ghost use types.Logic.{sem};
ghost use Rattle.latch_space.specs.BoxLending.{LendsBoxed};

use std::alloc::{AllocError, Global};
use std::marker::Model;

/// A box for an object, seen as the object that is in it, if one is.
#[derive(Drop)]
pub struct ObjectBox<O> {
    inside: Box<Option<O>>,
}

impl<O> Model for ObjectBox<O> {
    ghost use Rattle.std.specs.Prelude.{Option};

    ghost Value = { Option O };

    ghost view = { λ b. b.inside.value };
}

impl<O> ObjectBox<O> {
    /// The object in a box of its own.
    pub(crate) fn new(alloc: Global, object: O) -> Result<ObjectBox<O>, AllocError>
    where
        O: Drop,
        ensures { IfOk result (λ b. b ≡ Some object) }
    {
        Ok(ObjectBox {
            inside: Box::new(alloc, Some(object))?,
        })
    }

    /// The object.
    pub(crate) fn get(&self) -> &O
        requires { (x : O) × (self.now ≡ Some x) }
        ensures { self.now ≡ Some result.now }
    {
        match &*self.inside {
            Some(object) => object,
            None => unreachable!(),
        }
    }

    /// The object, to write, if there is one.
    pub(crate) fn as_mut(&mut self) -> Option<&mut O>
        ensures* writes_back { sem 𝓛 (LendsBoxed O.row self.entry result) }
        ensures value { option_copied_mut result ≡ self.old }
    {
        let inside: &mut Option<O> = &mut self.inside;
        inside.as_mut()
    }

    /// The object, without its box.
    pub(crate) fn into_object(self) -> O
        requires { (x : O) × (self ≡ Some x) }
        ensures { self ≡ Some result }
    {
        let Self { inside } = self;
        match Box::into_inner(inside) {
            Some(object) => object,
            None => unreachable!(),
        }
    }

    /// Ends a box without an object.
    pub(crate) fn end(self)
        requires { self ≡ None }
    {
        let Self { inside } = self;
        let rest = Box::into_inner(inside);
        let None = rest else { unreachable!() };
    }

    /// Takes the object out, if there is one. The box stays.
    pub(crate) fn take(&mut self) -> Option<O>
        ensures value { result ≡ self.old }
        ensures after { self.new ≡ None }
    {
        self.inside.take()
    }

    /// Puts an object into the box, and gives the one that was there.
    pub(crate) fn replace(&mut self, object: O) -> Option<O>
        ensures value { result ≡ self.old }
        ensures after { self.new ≡ Some object }
    {
        self.inside.replace(object)
    }
}

/// A place at a table, for an object in its box, seen as that object, if there is one.
#[derive(Drop)]
pub struct TableSlot<O> {
    boxed: Option<ObjectBox<O>>,
}

impl<O> Model for TableSlot<O> {
    ghost use Rattle.std.specs.Prelude.{Option};
    ghost use Rattle.latch_space.specs.Slots.{in_box};

    ghost Value = { Option O };

    ghost view = { λ s. in_box s.boxed };
}

impl<O> TableSlot<O> {
    /// The place without a box.
    pub(crate) fn vacant() -> TableSlot<O>
        ensures { result ≡ None }
    {
        TableSlot { boxed: None }
    }

    /// The place with this box.
    pub(crate) fn new(boxed: ObjectBox<O>) -> TableSlot<O>
        ensures { result ≡ boxed }
    {
        TableSlot { boxed: Some(boxed) }
    }

    /// Ends a place without an object.
    pub(crate) fn end(self)
        requires { self ≡ None }
    {
        let Self { boxed } = self;
        if let Some(boxed) = boxed {
            boxed.end();
        }
    }

    /// The box, which is there.
    pub(crate) fn into_box(self) -> ObjectBox<O>
        requires { (x : O) × (self ≡ Some x) }
        ensures { result ≡ self }
    {
        let Self { boxed } = self;
        match boxed {
            Some(boxed) => boxed,
            None => unreachable!(),
        }
    }
}

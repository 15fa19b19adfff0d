//! A caller that knows a shelf and a sink only by their traits.
ghost use Rattle.std.specs.Prelude.{◌≡◌, ◌++◌, ◌⊎◌, Some};
ghost use Rattle.std.specs.Option.{ForSome};
ghost use Rattle.io_port.specs.Faults.{ShowsFault};
ghost use Rattle.io_port.specs.Sink.{Puts};

use io_port::{Shelf, ShelfError, Sink};
use std::alloc::Global;

#[derive(Clone, Copy, PartialEq)]
pub(crate) enum Copied {
    Done,
    ShelfFault,
    SinkFault,
    TooLong,
    NoMemory,
}

/// Puts two files one after another.
pub(crate) fn copy_two<F: Shelf, K: Sink>(
    alloc: Global,
    shelf: &mut F,
    sink: &mut K,
    first: &str,
    second: &str,
    limit: u64,
) -> Copied
    ensures done { result ≡ Copied.Done → ForSome (F.holds shelf.old) (λ files.
        ForSome (files first.now) (λ a. ForSome (files second.now) (λ b.
        Puts (K.written sink.old) (K.written sink.new) (a ++ b)))) }
    ensures shelf { result ≡ Copied.ShelfFault →
        ShowsFault (F.faults shelf.old) (F.faults shelf.new)
        × ((F.failed shelf.new ≡ Some first.now) ⊎ (F.failed shelf.new ≡ Some second.now)) }
    ensures sink { result ≡ Copied.SinkFault → ShowsFault (K.faults sink.old) (K.faults sink.new) }
{
    let a = match shelf.load(alloc, first, limit) {
        Ok(bytes) => bytes,
        Err(ShelfError::Failed) => return Copied::ShelfFault,
        Err(ShelfError::TooLong(_)) => return Copied::TooLong,
        Err(ShelfError::NoMemory) => return Copied::NoMemory,
    };
    let b = match shelf.load(alloc, second, limit) {
        Ok(bytes) => bytes,
        Err(ShelfError::Failed) => return Copied::ShelfFault,
        Err(ShelfError::TooLong(_)) => return Copied::TooLong,
        Err(ShelfError::NoMemory) => return Copied::NoMemory,
    };
    if sink.put(&a).is_err() {
        return Copied::SinkFault;
    }
    match sink.put(&b) {
        Ok(()) => Copied::Done,
        Err(_) => Copied::SinkFault,
    }
}

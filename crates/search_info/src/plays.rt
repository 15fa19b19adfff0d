//! What each step on the table tells.
ghost use Rattle.std.specs.Prelude.{Option, None};
ghost use Rattle.learning.specs.declared.event.Event.{Event};
ghost use Rattle.search_info.specs.Parts.{lower_part, upper_part, joined_parts, no_part};
ghost use Rattle.search_info.specs.Steps.{loaded, exchanged};

use crate::knows::Knows;
use atomic_table::{Join, Play, Split};
use learning::Event;
use std::marker::{Brand, PhantomData};

/// The event that a step is for, in the proof alone. A call at `Brand` picks it.
pub(crate) trait Asks {
    ghost event: { Option Event };
}

impl Asks for Brand {
    ghost event = { None };
}

pub(crate) struct Loads<X> {
    asks: PhantomData<X>,
}

impl<X: Asks> Play<u64, Knows> for Loads<X> {
    ghost then = { loaded X.event };
}

pub(crate) struct Exchanges<X> {
    asks: PhantomData<X>,
}

impl<X: Asks> Play<u64, Knows> for Exchanges<X> {
    ghost then = { exchanged X.event };
}

pub(crate) struct Cut;

impl Split<Knows> for Cut {
    ghost left = { lower_part };

    ghost right = { upper_part };
}

pub(crate) struct Glue;

impl Join<Knows> for Glue {
    ghost both = { joined_parts };

    ghost spent = { no_part };
}

//! Rounds: what is asked of many rows one after another.
use crate::asked::{Asked, Name, Order, Run, Wanted, add};
use key_tuple::Mode;
use map_history::Reply;
use std::alloc::Global;
use std::process::Abort;

/// An order, the number of the first row that is given it, the step to the number of each next one,
/// how many rows there are, and how often it is given; when all rows have had it, it begins anew.
pub(crate) type Round = (Order, u32, u32, u32, u32);

/// What an order asks of the row with a number, and what it has to be replied where rows are put once,
/// and none is asked for that isn't there. A row's key has two bytes: eight rows have one first byte,
/// and are a group. A seek goes before the group, or behind it.
fn asked_of(number: u32, order: Order) -> Asked {
    let start = number.wrapping_mul(1 << 21);
    let (start, length, reply) = match order {
        Order::Seek(Mode::Ge) => (start, 1, Reply::Found),
        Order::Seek(_) => (start | 0x00ff_0000, 2, Reply::Found),
        Order::Get => (start, 2, Reply::Found),
        Order::Put(_) | Order::Set(_) | Order::Del => (start, 2, Reply::Ok),
    };
    Asked {
        name: Name {
            start,
            cut: None,
            length,
        },
        order,
        wanted: Wanted::Reply(reply),
    }
}

/// What a round asks of rows whose numbers are higher by so much, with this order in place of a get.
/// The steps of a seek are whole groups.
fn run_of(round: &Round, ahead: u32, get: Order) -> Run {
    let (order, first, step, rows, times) = *round;
    let order = match order {
        Order::Get => get,
        other => other,
    };
    Run {
        first: asked_of(first.wrapping_add(ahead), order),
        step: step.wrapping_mul(1 << 21),
        rows,
        times,
    }
}

/// What the rounds ask, one after the other, of rows whose numbers are higher by so much, with this
/// order in place of each get.
pub(crate) fn asked_in<R: Abort>(
    rt: &R,
    alloc: Global,
    rounds: &[Round],
    ahead: u32,
    get: Order,
) -> Vec<Run> {
    let mut runs = Vec::new(alloc);
    for round in rounds {
        add(rt, &mut runs, run_of(round, ahead, get));
    }
    runs
}

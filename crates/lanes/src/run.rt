//! All lanes at once.
ghost use Rattle.std.specs.List.{AllZip};

use crate::{Doer, Gate};
use std::sync::Wait;
use std::thread::{Threads, for_each_mut};

/// Lets each doer work once, in a thread of its own where one can be made, and gives them back in
/// order.
pub fn run_lanes<R: Threads + Sync, W: Wait + Sync, D: Doer, G: Gate + Sync>(
    rt: &R,
    wait: &W,
    mut doers: Vec<D>,
    gate: &G,
) -> Vec<D>
    ensures { AllZip D.worked doers.items result.items }
{
    work_all(rt, wait, gate, doers.as_mut_slice());
    doers
}

/// As many threads as doers: `for_each_mut` parts the doers into halves of halves, down to one.
fn work_all<R: Threads + Sync, W: Wait + Sync, D: Doer, G: Gate + Sync>(
    rt: &R,
    wait: &W,
    gate: &G,
    doers: &mut [D],
)
    ensures { AllZip D.worked doers.old doers.new }
{
    let threads = doers.len();
    if threads == 0 {
        return;
    }
    for_each_mut(
        rt,
        doers,
        threads,
        &|_: usize, doer: &mut D|
            ensures { D.worked doer.entry.now doer.exit.now }
        {
            doer.work(rt, wait, gate);
        },
    );
}

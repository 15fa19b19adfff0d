//! Eight callers on eight threads over leaves that are hashed, changed and evicted: a recount at the
//! end.
ghost use Rattle.index_engine.specs.Engines.{IsOf};
ghost use Rattle.engine_tests.specs.Fields.{FirstHasFields};

use crate::asked::{Order, count_of};
use crate::claims::{ensure, ensure_at};
use crate::recount::Counted;
use crate::rounds::{Round, asked_in};
use crate::setup::{counted, open, worked};
use index_engine::{Engine, EnginePass};
use key_tuple::Mode;
use map_history::Sizes;
use std::alloc::Global;
use std::process::Abort;
use std::sync::Wait;
use std::thread::{Threads, join_mut};

/// As few blocks as eight callers may have, and pages for all rows.
static SIZES: Sizes = Sizes {
    blocks: 72,
    pages: 1000,
    parts: 2,
    cells: 64,
    nodes: 1000,
    fold_bits: 64,
    max_changes: 10_000,
};

/// What each caller does with every eighth row: gets and seeks go to four of its rows again and again.
/// All eight together have 800 rows, of which eight fill a leaf.
static ROUNDS: [Round; 9] = [
    (Order::Put((b"", 2000)), 0, 8, 100, 100),
    (Order::Get, 0, 8, 4, 200),
    (Order::Set((b"s", 2048)), 0, 8, 30, 30),
    (Order::Set((b"s", 1)), 240, 8, 30, 30),
    (Order::Get, 0, 8, 4, 200),
    (Order::Del, 240, 8, 40, 40),
    (Order::Seek(Mode::Le), 0, 8, 4, 200),
    (Order::Put((b"", 100)), 240, 8, 40, 40),
    (Order::Get, 0, 8, 4, 200),
];

/// How the rows of all are looked for at the end: each once, and four again and again.
static LOOKS: [Round; 2] = [(Order::Get, 0, 1, 800, 800), (Order::Get, 0, 8, 4, 200)];

/// A caller is told of each what it has to be in rounds on the rows from a number on.
fn assert_told<R: Abort + Wait>(
    rt: &R,
    alloc: Global,
    engine: &Engine,
    pass: &mut EnginePass,
    rounds: &[Round],
    ahead: u32,
)
    requires own { IsOf engine.now pass.old }
    requires fields { FirstHasFields engine.now 1 }
    ensures own { IsOf engine.now pass.new }
{
    let runs = asked_in(rt, alloc, rounds, ahead, Order::Get);
    let count = worked(rt, alloc, engine, pass, 1, &runs);
    ensure_at(rt, count == count_of(&runs), "order", count as usize);
}

/// Cuts the pass in halves, and gives the upper one.
fn upper_half<R: Abort>(rt: &R, alloc: Global, engine: &Engine, pass: &mut EnginePass) -> EnginePass
    requires own { IsOf engine.now pass.old }
    ensures own { IsOf engine.now pass.new }
    ensures upper { IsOf engine.now result }
{
    let (low, end) = pass.numbers();
    ensure(rt, end >= 2 && low <= end - 2, "two numbers");
    engine.split(alloc, pass).expect(rt, "the upper half")
}

/// Cuts the pass in halves so often, has each caller work the rounds on the rows from its number on,
/// all of them at once, and joins the halves.
fn work_lanes<R: Abort + Threads + Wait + Sync>(
    rt: &R,
    alloc: Global,
    engine: &Engine,
    pass: &mut EnginePass,
    halvings: u32,
)
    requires own { IsOf engine.now pass.old }
    requires fields { FirstHasFields engine.now 1 }
    ensures own { IsOf engine.now pass.new }
{
    if halvings == 0 {
        let ahead = pass.numbers().0;
        assert_told(rt, alloc, engine, pass, &ROUNDS, ahead);
        return;
    }
    let rest = halvings - 1;
    let mut upper = upper_half(rt, alloc, engine, pass);
    join_mut(
        rt,
        &mut ||
            requires { IsOf engine.now pass.now × FirstHasFields engine.now 1 }
            ensures { IsOf engine.entry.now pass.exit.now }
        { work_lanes(rt, alloc, engine, pass, rest) },
        &mut ||
            requires { IsOf engine.now upper × FirstHasFields engine.now 1 }
            ensures { IsOf engine.entry.now upper.exit }
        { work_lanes(rt, alloc, engine, &mut upper, rest) },
    );
    ensure(rt, pass.numbers().1 == upper.numbers().0, "the halves");
    engine.join(pass, upper);
}

/// What is hashed when all have worked, and one of them has found each row of all, and has looked
/// again and again for some.
fn counted_at_the_end<R: AllocGlobal + Abort + Threads + Wait + Sync>(rt: &R) -> Counted {
    let (engine, mut pass) = open(rt, &SIZES, 1, 8);
    work_lanes(rt, rt.alloc(), &engine, &mut pass, 3);
    assert_told(rt, rt.alloc(), &engine, &mut pass, &LOOKS, 0);
    counted(rt, engine, pass, &SIZES)
}

/// The rows that eight callers put in the same leaves are found, and hashed leaves and nodes are there.
#[test]
fn eight_lanes_leave_an_exact_hash(rt: HostRuntime) {
    let counted = counted_at_the_end(&rt);
    ensure(
        &rt,
        counted.leaves > 0 && counted.nodes > 0,
        "hashed leaves, and nodes",
    );
}

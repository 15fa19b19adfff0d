//! A gate that looks at what the lanes have done so far, and lets their lines take turns: so each is
//! asked before its line, and not after it.
use crate::meeting::wait_for;
use crate::setup::{SCHEMA, is_end, run_at};
use ahi_cli::Status;
use lanes::Gate;
use std::sync::atomic::{AtomicBool, AtomicU64, Ordering};

// How often a lane looks for the other before it gives up.
const TURNS: u32 = 100_000_000;

/// How many lines of each lane take turns.
const LINES: u64 = 5;

/// Lets line n of lane 1 pass when lane 2 has done its line before, and line n of lane 2 when lane 1
/// has done its line n. Gives up after so many turns.
#[derive(Drop)]
struct InTurns {
    // The line that each lane has come to: those before it are done.
    first: AtomicU64,
    second: AtomicU64,
    gave_up: AtomicBool,
}

impl InTurns {
    fn new() -> Self {
        InTurns {
            first: AtomicU64::new(0),
            second: AtomicU64::new(0),
            gave_up: AtomicBool::new(false),
        }
    }

    fn gave_up(&self) -> bool {
        self.gave_up.load(Ordering::SeqCst)
    }
}

impl Gate for InTurns {
    fn before(&self, lane: u32, line: u32) {
        let line = u64::from(line);
        if lane == 1 {
            self.first.store(line, Ordering::SeqCst);
            if line <= LINES {
                wait_for(&self.gave_up, TURNS, &self.second, line);
            }
        } else {
            self.second.store(line, Ordering::SeqCst);
            wait_for(&self.gave_up, TURNS, &self.first, line.wrapping_add(1));
        }
    }
}

/// Lane 1 has a line more, which comes when the other's last line may pass.
const FIRST: &str = "get t a\nput t a x\nget t b\nput t a y\nget t a\nget t a\n";

const SECOND: &str = "get t a\nget t a\nput t b z\ndel t a\nget t a\n";

/// What both are told, their changes, and the statistics: each answer is by a descent.
const REPORT: &str =
    "ahi run\nlane 1\n1 absent @0 cold no\n2 ok @1 cold no\n3 absent @1 cold no\n4 duplicate @2 cold no\n5 absent @3 cold no\n6 absent @3 cold no\nlane 2\n1 absent @0 cold no\n2 found x @1 cold no\n3 ok @2 cold no\n4 ok @3 cold no\n5 absent @3 cold no\nchanges t 3\n1 1 2 put a x\n2 2 3 put b z\n3 2 4 del a\nstats t hit 0 off 0 cold 11 short 0 part-busy 0 no-entry 0 block-busy 0 clock 0 unequal 0 by-clock 0 by-busy 0 by-moved 0 by-last 0 built 0 same 0 arena 0 raced 0 worn 0\nend\n";

#[test]
fn the_gate_is_asked_before_each_line(rt: HostRuntime) {
    let gate = InTurns::new();
    let ended = run_at(&rt, &gate, SCHEMA, &[FIRST, SECOND]);
    assert!(rt; is_end(&ended, Status::Done, REPORT) && !gate.gave_up());
}

//! Leaves that are hashed, split, changed, merged and evicted, by one caller: a recount after each
//! round.
use crate::asked::Order;
use crate::claims::{ensure, ensure_at};
use crate::recount::Counted;
use crate::rounds::{Round, asked_in};
use crate::setup::counted_alone;
use key_tuple::Mode;
use map_history::Sizes;
use std::process::Abort;
use std::sync::Wait;

/// Sixteen blocks, and two partitions.
fn sizes_for(fold_bits: u32) -> Sizes {
    Sizes {
        blocks: 16,
        pages: 200,
        parts: 2,
        cells: 64,
        nodes: 1000,
        fold_bits,
        max_changes: 10_000,
    }
}

/// Sixty rows with 1,000 bytes: six leaves have eight rows, and the last has twelve. A row of each of
/// the six is looked for. Sixteen larger ones come between those of the first two leaves, which
/// split. Eight values get shorter; four of the sixth leaf get longer, and it stays hashed. Then the
/// larger rows go, and twelve others beside them, and leaves are merged. Two hundred rows fill so
/// many leaves that all others are evicted; and rows of the last three are looked for. Those that look
/// for rows do so until the leaves that they are on are hashed, each case in its own way.
static ROUNDS: [Round; 9] = [
    (Order::Put((b"", 1000)), 0, 2, 60, 60),
    (Order::Get, 8, 16, 6, 300),
    (Order::Put((b"", 2000)), 1, 2, 16, 16),
    (Order::Set((b"s", 1)), 0, 2, 8, 8),
    (Order::Set((b"s", 1500)), 84, 2, 4, 4),
    (Order::Del, 1, 2, 16, 16),
    (Order::Del, 32, 2, 12, 12),
    (Order::Put((b"", 2000)), 200, 1, 200, 200),
    (Order::Get, 72, 16, 3, 300),
];

/// How the rows are looked for, to how many bits folds are cut, and how many nodes there are after
/// some of the rounds.
struct Case {
    order: Order,
    fold_bits: u32,
    nodes: [Option<u32>; 9],
}

static CASES: [Case; 5] = [
    // A node for each row of a hashed leaf.
    Case {
        order: Order::Get,
        fold_bits: 64,
        nodes: [
            Some(0),
            Some(48),
            Some(64),
            Some(64),
            Some(64),
            Some(48),
            Some(36),
            Some(0),
            None,
        ],
    },
    Case {
        order: Order::Get,
        fold_bits: 1,
        nodes: [Some(0), None, None, None, None, None, None, Some(0), None],
    },
    // A node for each group of a hashed leaf: for its first row, or for its last.
    Case {
        order: Order::Seek(Mode::Ge),
        fold_bits: 64,
        nodes: [
            Some(0),
            Some(12),
            None,
            None,
            None,
            None,
            None,
            Some(0),
            None,
        ],
    },
    Case {
        order: Order::Seek(Mode::Le),
        fold_bits: 64,
        nodes: [
            Some(0),
            Some(12),
            None,
            None,
            None,
            None,
            None,
            Some(0),
            None,
        ],
    },
    Case {
        order: Order::Seek(Mode::Le),
        fold_bits: 1,
        nodes: [Some(0), None, None, None, None, None, None, Some(0), None],
    },
];

/// What was hashed once one caller had worked the first of these rounds, so many of them. Each order
/// was told what it has to be.
fn counted_after<R: AllocGlobal + Abort + Wait>(
    rt: &R,
    order: Order,
    fold_bits: u32,
    count: usize,
) -> Counted {
    let rounds = ROUNDS.get(..count).expect(rt, "so many rounds");
    let runs = asked_in(rt, rt.alloc(), rounds, 0, order);
    counted_alone(rt, &sizes_for(fold_bits), 1, &runs)
}

/// Whether so many nodes were counted, or some where none are named, and leaves where there are
/// nodes.
fn is_as_wanted(told: Counted, nodes: Option<u32>) -> bool {
    let is_so = match nodes {
        Some(nodes) => told.nodes == nodes,
        None => told.nodes > 0,
    };
    is_so && (told.leaves > 0) == (told.nodes > 0)
}

/// Behind each round of the case so much is counted.
fn assert_case<R: AllocGlobal + Abort + Wait>(rt: &R, case: &Case) {
    let mut count: usize = 0;
    for nodes in case.nodes.iter() {
        count = count.wrapping_add(1);
        let counted = counted_after(rt, case.order, case.fold_bits, count);
        ensure_at(rt, is_as_wanted(counted, *nodes), "round", count);
    }
}

#[test]
fn hashed_leaves_and_partitions_agree(rt: HostRuntime) {
    for case in CASES.iter() {
        assert_case(&rt, case);
    }
}

/// How many leaves are hashed by whole keys after so many rounds.
fn leaves_after<R: AllocGlobal + Abort + Wait>(rt: &R, count: usize) -> u32 {
    counted_after(rt, Order::Get, 64, count).leaves
}

/// Six leaves are hashed; two of them split and both halves are; and some are merged.
#[test]
fn hashed_leaves_split_and_merge(rt: HostRuntime) {
    let are_so = leaves_after(&rt, 2) == 6 && leaves_after(&rt, 3) >= 8 && leaves_after(&rt, 7) < 7;
    ensure(
        &rt,
        are_so,
        "six leaves, then eight or more, and then fewer",
    );
}

//! Cursors whose leaf was given back and changed since. A value has 2,000 bytes in most rows, of which
//! eight fill a leaf; ascending ones leave four on each leaf but the last.
use crate::cases::{Begin, Case, Outcome, Stage, assert_cases, case};
use crate::errands::{Errand, Errands};

/// A row is put of which eight fill a leaf.
const PUTS: Errand = Errand::Puts((b"", 2000));

/// Three rows on the only leaf.
const FEW: &[Errands] = &[(0, Errand::Puts((b"", 100)), 10, 10, 3)];

/// Eight rows, which fill the only leaf.
const FULL: &[Errands] = &[(0, PUTS, 10, 10, 8)];

/// Rows 10 to 40 on the first leaf, 50 to 80 on the next one, and 90 to 130 on the last.
const THREE: &[Errands] = &[(0, PUTS, 10, 10, 13)];

/// Ten leaves: each has four rows, and the last one five.
const TEN: &[Errands] = &[(0, PUTS, 10, 10, 41)];

/// The rows of the last of three leaves.
const LAST: &[u32] = &[90, 100, 110, 120, 130];

/// One stage without a piece.
macro_rules! after {
    ($told:expr, $errands:expr $(,)?) => {
        &[Stage {
            meanwhile: $errands,
            told: $told,
            piece: None,
        }]
    };
}

/// A row is put on the leaf of the cursor, or goes from it, or gets another value there.
static ROWS: [Case; 9] = [
    case!(FEW, Begin::Row(20), after!(Outcome::ByClock, &[])),
    case!(
        FEW,
        Begin::Row(20),
        after!(
            Outcome::ByClock,
            &[(0, Errand::Puts((b"", 100)), 15, 10, 2)]
        ),
    ),
    case!(
        FEW,
        Begin::Row(20),
        after!(Outcome::Raised(7), &[(0, Errand::Dels, 30, 1, 1)]),
    ),
    case!(
        FEW,
        Begin::Row(20),
        after!(Outcome::Raised(7), &[(0, Errand::Dels, 20, 1, 1)]),
    ),
    case!(
        FEW,
        Begin::Row(20),
        after!(
            Outcome::Raised(7),
            &[
                (0, Errand::Dels, 20, 1, 1),
                (0, Errand::Puts((b"", 100)), 20, 1, 1),
            ],
        ),
    ),
    case!(
        FEW,
        Begin::Row(20),
        after!(
            Outcome::ByClock,
            &[(0, Errand::Sets((b"same", 100)), 20, 1, 1)],
        ),
    ),
    case!(
        FEW,
        Begin::Row(20),
        after!(
            Outcome::Raised(7),
            &[(0, Errand::Sets((b"", 99)), 20, 1, 1)]
        ),
    ),
    case!(
        FEW,
        Begin::Row(20),
        after!(
            Outcome::Raised(7),
            &[(0, Errand::Sets((b"", 101)), 20, 1, 1)]
        ),
    ),
    case!(
        FEW,
        Begin::Row(20),
        after!(
            Outcome::ByClock,
            &[(1, PUTS, 20, 1, 9), (1, Errand::Dels, 20, 1, 9)]
        ),
    ),
];

#[test]
fn a_cursor_is_moved_where_a_row_goes_or_gets_another_length(rt: HostRuntime) {
    assert_cases(&rt, &ROWS);
}

/// What is told once the rows are on other leaves: those of the piece are found by the key.
static LEAVES: [Case; 6] = [
    // The root was a leaf, which is split.
    case!(
        FULL,
        Begin::Row(30),
        &[
            Stage {
                meanwhile: &[(0, PUTS, 90, 10, 1)],
                told: Outcome::Moved,
                piece: Some((&[30, 40], false)),
            },
            Stage {
                meanwhile: &[],
                told: Outcome::ByClock,
                piece: Some((&[50, 60, 70, 80, 90], true)),
            },
        ],
    ),
    // The last leaf is split: the row stays, or goes to the leaf behind.
    case!(
        THREE,
        Begin::Row(90),
        &[
            Stage {
                meanwhile: &[(0, PUTS, 140, 10, 4)],
                told: Outcome::Moved,
                piece: Some((&[90, 100, 110, 120], false)),
            },
            Stage {
                meanwhile: &[],
                told: Outcome::ByClock,
                piece: Some((&[130, 140, 150, 160, 170], true)),
            },
        ],
    ),
    case!(
        THREE,
        Begin::Row(130),
        &[Stage {
            meanwhile: &[(0, PUTS, 140, 10, 4)],
            told: Outcome::Moved,
            piece: Some((&[130, 140, 150, 160, 170], true)),
        }],
    ),
    // Two rows of the leaf behind it are left, and come to it.
    case!(
        THREE,
        Begin::Row(10),
        &[
            Stage {
                meanwhile: &[(0, Errand::Dels, 50, 10, 2)],
                told: Outcome::Moved,
                piece: Some((&[10, 20, 30, 40, 70, 80], false)),
            },
            Stage {
                meanwhile: &[],
                told: Outcome::ByClock,
                piece: Some((LAST, true)),
            },
        ],
    ),
    // Its own leaf is freed.
    case!(
        THREE,
        Begin::Row(70),
        &[
            Stage {
                meanwhile: &[(0, Errand::Dels, 50, 10, 2)],
                told: Outcome::Moved,
                piece: Some((&[70, 80], false)),
            },
            Stage {
                meanwhile: &[],
                told: Outcome::ByClock,
                piece: Some((LAST, true)),
            },
        ],
    ),
    // Of six pages one is free, and the one that is freed: another index takes both.
    Case {
        blocks: 32,
        pages: 6,
        clock: 7,
        before: THREE,
        begin: Begin::Row(70),
        to: None,
        limit: 1000,
        stages: &[Stage {
            meanwhile: &[(0, Errand::Dels, 50, 10, 2), (1, PUTS, 10, 10, 9)],
            told: Outcome::Moved,
            piece: Some((&[70, 80], false)),
        }],
    },
];

#[test]
fn a_cursor_is_moved_where_its_leaf_is_split_merged_or_freed(rt: HostRuntime) {
    assert_cases(&rt, &LEAVES);
}

/// Eight blocks have the root and seven leaves at most: the other nine leaves are looked at, and the
/// cursor's own leaf again or not.
static EVICTED: [Case; 2] = [
    Case {
        blocks: 8,
        pages: 32,
        clock: 7,
        before: TEN,
        begin: Begin::Row(20),
        to: None,
        limit: 1000,
        stages: &[Stage {
            meanwhile: &[(0, Errand::Gets, 50, 40, 9)],
            told: Outcome::Moved,
            piece: Some((&[20, 30, 40], false)),
        }],
    },
    Case {
        blocks: 8,
        pages: 32,
        clock: 7,
        before: TEN,
        begin: Begin::Row(20),
        to: None,
        limit: 1000,
        stages: &[Stage {
            meanwhile: &[(0, Errand::Gets, 50, 40, 9), (0, Errand::Gets, 10, 1, 1)],
            told: Outcome::Moved,
            piece: Some((&[20, 30, 40], false)),
        }],
    },
];

#[test]
fn a_cursor_is_moved_where_its_leaf_was_evicted_and_read_again(rt: HostRuntime) {
    assert_cases(&rt, &EVICTED);
}

/// No clock guards anything that begins at the last value.
static WORN: [Case; 1] = [Case {
    blocks: 32,
    pages: 32,
    clock: u64::MAX,
    before: THREE,
    begin: Begin::Row(20),
    to: None,
    limit: 1000,
    stages: &[
        Stage {
            meanwhile: &[],
            told: Outcome::Last,
            piece: Some((&[20, 30, 40], false)),
        },
        Stage {
            meanwhile: &[(0, Errand::Dels, 40, 1, 1)],
            told: Outcome::Last,
            piece: Some((&[50, 60, 70, 80], false)),
        },
        Stage {
            meanwhile: &[],
            told: Outcome::Last,
            piece: Some((LAST, true)),
        },
    ],
}];

#[test]
fn a_key_is_searched_where_the_clock_is_the_last(rt: HostRuntime) {
    assert_cases(&rt, &WORN);
}

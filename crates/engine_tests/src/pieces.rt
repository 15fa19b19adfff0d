//! Pieces of a scan over three leaves: where they begin, and how each ends.
use crate::cases::{Begin, Case, Outcome, Stage, assert_cases, case};
use crate::errands::{Errand, Errands};

/// A row is put of which eight fill a leaf.
const PUTS: Errand = Errand::Puts((b"", 2000));

/// Rows 10 to 40 on the first leaf, 50 to 80 on the next one, and 90 to 130 on the last.
const THREE: &[Errands] = &[(0, PUTS, 10, 10, 13)];

/// The same, and the second leaf is left without a row.
const HOLLOW: &[Errands] = &[(0, PUTS, 10, 10, 13), (0, Errand::Strikes, 50, 10, 4)];

/// The rows of each leaf.
const ONE: &[u32] = &[10, 20, 30, 40];

const TWO: &[u32] = &[50, 60, 70, 80];

const LAST: &[u32] = &[90, 100, 110, 120, 130];

/// A piece from where the cursor stands, found by its clock.
macro_rules! piece {
    ($rows:expr, $end:expr) => {
        Stage {
            meanwhile: &[],
            told: Outcome::ByClock,
            piece: Some(($rows, $end)),
        }
    };
}

/// Errands before the next piece, whose leaf is found so.
macro_rules! then {
    ($errands:expr, $told:expr, $rows:expr, $end:expr $(,)?) => {
        Stage {
            meanwhile: $errands,
            told: $told,
            piece: Some(($rows, $end)),
        }
    };
}

/// Pieces that begin at a row, behind one, at a leaf's end, and where a leaf has no row.
static BEGIN: [Case; 9] = [
    case!(
        THREE,
        Begin::Row(10),
        &[piece!(ONE, false), piece!(TWO, false), piece!(LAST, true)],
    ),
    case!(THREE, Begin::Row(130), &[piece!(&[130], true)]),
    case!(
        THREE,
        Begin::End(10),
        &[piece!(TWO, false), piece!(LAST, true)],
    ),
    // The leaf behind has no row: so has the piece.
    case!(
        HOLLOW,
        Begin::End(10),
        &[piece!(&[], false), piece!(LAST, true)],
    ),
    case!(HOLLOW, Begin::End(50), &[piece!(LAST, true)]),
    // The only leaf has no row left.
    case!(
        &[(0, PUTS, 10, 10, 1)],
        Begin::Row(10),
        &[then!(
            &[(0, Errand::Strikes, 10, 1, 1)],
            Outcome::Raised(7),
            &[],
            true,
        )],
    ),
    // Behind the last row of a leaf comes another one.
    case!(
        THREE,
        Begin::Row(10),
        &[
            piece!(ONE, false),
            then!(&[(0, PUTS, 45, 1, 1)], Outcome::ByClock, &[45], false),
            piece!(TWO, false),
        ],
    ),
    // The row behind which the cursor stands goes, and comes back.
    case!(
        THREE,
        Begin::Row(10),
        &[
            piece!(ONE, false),
            then!(
                &[(0, Errand::Strikes, 40, 1, 1)],
                Outcome::Moved,
                TWO,
                false
            ),
        ],
    ),
    case!(
        THREE,
        Begin::Row(10),
        &[
            piece!(ONE, false),
            then!(
                &[(0, Errand::Strikes, 40, 1, 1), (0, PUTS, 40, 1, 1)],
                Outcome::Moved,
                TWO,
                false,
            ),
        ],
    ),
];

#[test]
fn a_piece_begins_where_the_cursor_stands(rt: HostRuntime) {
    assert_cases(&rt, &BEGIN);
}

/// A case of three leaves, of so many rows and up to TO.
macro_rules! bounded {
    ($begin:expr, $to:expr, $limit:expr, $stages:expr $(,)?) => {
        Case {
            blocks: 32,
            pages: 32,
            clock: 7,
            before: THREE,
            begin: $begin,
            to: $to,
            limit: $limit,
            stages: $stages,
        }
    };
}

/// Pieces that end with as many rows as are left, at TO, or with a leaf whose high key is TO or above
/// it; and such as go on.
static END: [Case; 13] = [
    bounded!(Begin::Row(10), None, 2, &[piece!(&[10, 20], true)]),
    bounded!(Begin::Row(10), None, 4, &[piece!(ONE, true)]),
    bounded!(
        Begin::Row(10),
        None,
        6,
        &[piece!(ONE, false), piece!(&[50, 60], true)],
    ),
    bounded!(Begin::End(10), None, 1, &[piece!(&[50], true)]),
    bounded!(Begin::Row(90), None, 5, &[piece!(LAST, true)]),
    bounded!(Begin::Row(10), Some(30), 100, &[piece!(&[10, 20], true)]),
    bounded!(Begin::Row(10), Some(25), 100, &[piece!(&[10, 20], true)]),
    bounded!(Begin::Row(10), Some(30), 2, &[piece!(&[10, 20], true)]),
    bounded!(Begin::Row(10), Some(10), 100, &[piece!(&[], true)]),
    bounded!(Begin::Row(10), Some(45), 100, &[piece!(ONE, true)]),
    bounded!(Begin::Row(10), Some(50), 100, &[piece!(ONE, true)]),
    bounded!(
        Begin::Row(10),
        Some(51),
        100,
        &[piece!(ONE, false), piece!(&[50], true)],
    ),
    bounded!(Begin::End(10), Some(50), 100, &[piece!(&[], true)]),
];

#[test]
fn a_piece_ends_at_the_limit_at_to_or_with_its_leaf(rt: HostRuntime) {
    assert_cases(&rt, &END);
}

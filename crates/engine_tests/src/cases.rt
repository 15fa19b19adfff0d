//! Cases of a cursor: what is done before it is stored and meanwhile, how its leaf is found again,
//! and the pieces from there on.
ghost use Rattle.std.specs.Prelude.{IfSome};
ghost use Rattle.latch_space.specs.Passes.{view};
ghost use Rattle.engine_tests.specs.Marks.{IsMarked};

use crate::errands::{Errand, Errands};
use crate::site::{Caller, open_site};
use crate::walking::Scan;
use key_tuple::Fields;
use map_history::{RowIn, Rows};
use std::process::Abort;
use std::sync::Wait;
use tree_cursor::{Cursor, Restored, Stale, Step};

/// Where a cursor is stored.
#[derive(Clone, Copy)]
pub(crate) enum Begin {
    /// Before this row.
    Row(u32),
    /// Before the high key of this row's leaf.
    End(u32),
}

/// What a cursor is told when it is restored.
#[derive(Clone, Copy)]
pub(crate) enum Outcome {
    /// Its leaf is held again.
    ByClock,
    /// The clock that was kept is this one, and that of the block was raised once.
    Raised(u64),
    /// The clock of the block was raised.
    Moved,
    /// The clock that was kept is the last.
    Last,
}

/// What another caller does before the cursor is restored, what that is told, and the rows of the
/// next piece and whether it is the last, if one is asked for.
#[derive(Clone, Copy)]
pub(crate) struct Stage {
    pub(crate) meanwhile: &'static [Errands],
    pub(crate) told: Outcome,
    pub(crate) piece: Option<(&'static [u32], bool)>,
}

/// A space of so many blocks and pages, whose frames begin with the clock, what is done there before
/// the cursor is stored, where that is, TO, how many rows are asked for, and what comes then.
#[derive(Clone, Copy)]
pub(crate) struct Case {
    pub(crate) blocks: u32,
    pub(crate) pages: u32,
    pub(crate) clock: u64,
    pub(crate) before: &'static [Errands],
    pub(crate) begin: Begin,
    pub(crate) to: Option<u32>,
    pub(crate) limit: u32,
    pub(crate) stages: &'static [Stage],
}

/// A case of many blocks and pages, whose frames begin with clock 7, and of all rows.
macro_rules! case {
    ($before:expr, $begin:expr, $stages:expr $(,)?) => {
        crate::cases::Case {
            blocks: 32,
            pages: 32,
            clock: 7,
            before: $before,
            begin: $begin,
            to: None,
            limit: 1000,
            stages: $stages,
        }
    };
}

pub(crate) use case;

/// Whether that is what a cursor has to be told.
pub(crate) fn is_told(told: Restored, wanted: Outcome) -> bool {
    match wanted {
        Outcome::ByClock => matches!(told, Restored::ByClock { .. }),
        Outcome::Last => matches!(told, Restored::BySearch { cause: Stale::Last }),
        Outcome::Raised(clock) => is_moved(told, Some(clock)),
        Outcome::Moved => is_moved(told, None),
    }
}

/// Whether the block has a higher clock, by one where the kept one is named.
fn is_moved(told: Restored, clock: Option<u64>) -> bool {
    match told {
        Restored::BySearch {
            cause: Stale::Moved { kept, found },
        } => match clock {
            Some(clock) => kept == clock && clock.checked_add(1) == Some(found),
            None => found > kept,
        },
        _ => false,
    }
}

/// Whether a row has this number.
fn has_number(row: &RowIn<'_>, number: u32) -> bool {
    row.count() == 1 && row.field(0) == number.to_be_bytes().as_slice()
}

/// Whether the rows have these numbers, one after another.
pub(crate) fn have_numbers(rows: &Rows, numbers: &[u32]) -> bool {
    if rows.count() != numbers.len() {
        return false;
    }
    for i in 0..rows.count() {
        match numbers.get(i) {
            Some(number) if has_number(&rows.row(i), *number) => {}
            _ => return false,
        }
    }
    true
}

/// How many changes of the first index these are.
fn changes_of(errands: &[Errands]) -> u64 {
    let mut changes: u64 = 0;
    for (index, errand, _, _, rows) in errands.iter() {
        if *index == 0 && !matches!(errand, Errand::Gets) {
            changes = changes.wrapping_add(u64::from(*rows));
        }
    }
    changes
}

/// Does all of this.
pub(crate) fn work_errands<R: AllocGlobal + Abort + Wait>(
    rt: &R,
    caller: &mut Caller<'_>,
    errands: &[Errands],
) {
    for one in errands.iter() {
        caller.work_all(rt, *one);
    }
}

/// A cursor that is stored there.
fn stored<R: AllocGlobal + Abort + Wait>(rt: &R, walker: &mut Caller<'_>, begin: Begin) -> Cursor
    ensures { IsMarked (view walker.new.pass) result }
{
    match begin {
        Begin::Row(row) => walker.stand(rt, row).expect(rt, "a row"),
        Begin::End(row) => walker.stand_at_end(rt, row),
    }
}

/// Whether a piece was told at this point that has these rows, and is the last or not.
fn is_piece(step: &Step, rows: &Rows, point: u64, wanted: (&[u32], bool)) -> bool {
    step.point == point
        && step.count as usize == rows.count()
        && step.end == wanted.1
        && have_numbers(rows, wanted.0)
}

/// The cursor behind the next stage, if it goes on, and how many rows that tells; none where it isn't
/// as it has to be.
fn walked<R: AllocGlobal + Abort + Wait>(
    rt: &R,
    walker: &mut Caller<'_>,
    cursor: Cursor,
    scan: &Scan,
    stage: &Stage,
    left: u32,
    point: u64,
) -> Option<(Option<Cursor>, u32)>
    requires { IsMarked (view walker.old.pass) cursor }
    ensures { IfSome result (λ r. IfSome r.0 (λ c. IsMarked (view walker.new.pass) c)) }
{
    let Some(wanted) = stage.piece else {
        return if is_told(walker.told(&cursor), stage.told) {
            Some((Some(cursor), 0))
        } else {
            None
        };
    };
    let mut rows = Rows::new(rt.alloc());
    let (told, step, then) = walker.next(rt, cursor, scan, left, &mut rows);
    if is_told(told, stage.told) && is_piece(&step, &rows, point, wanted) {
        Some((then, step.count))
    } else {
        None
    }
}

/// The stages one after the other; the place of the first that isn't as it has to be.
fn first_wrong<R: AllocGlobal + Abort + Wait>(
    rt: &R,
    walker: &mut Caller<'_>,
    other: &mut Caller<'_>,
    case: &Case,
) -> Option<usize> {
    let scan = Scan::new(rt, 0, case.to, case.limit);
    let (mut left, mut point) = (case.limit, changes_of(case.before));
    let mut cursor = Some(stored(rt, walker, case.begin));
    for (place, stage) in case.stages.iter().enumerate() {
        work_errands(rt, other, stage.meanwhile);
        point = point.wrapping_add(changes_of(stage.meanwhile));
        let Some(at) = cursor else {
            return Some(place);
        };
        match walked(rt, walker, at, &scan, stage, left, point) {
            Some((then, count)) => {
                cursor = then;
                left = left.wrapping_sub(count);
            }
            None => return Some(place),
        }
    }
    None
}

/// One case in a space of its own.
fn assert_case<R: AllocGlobal + Abort + Wait>(rt: &R, case: &Case, number: usize) {
    let (site, pass, other) = open_site(rt, case.blocks, case.pages, case.clock);
    let mut walker = Caller::new(&site, pass);
    let mut other = Caller::new(&site, other);
    work_errands(rt, &mut other, case.before);
    if let Some(place) = first_wrong(rt, &mut walker, &mut other, case) {
        panic!(rt; "case {number} stage {place}")
    }
}

/// Each case is so.
pub(crate) fn assert_cases<R: AllocGlobal + Abort + Wait>(rt: &R, cases: &[Case]) {
    for (number, case) in cases.iter().enumerate() {
        assert_case(rt, case, number);
    }
}

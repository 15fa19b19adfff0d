//! A cursor while another caller deletes the other row of its leaf, puts one more, or holds the leaf,
//! in spaces whose frames begin with several clocks; and two cursors on one leaf.
ghost use Rattle.latch_space.specs.Passes.{view};
ghost use Rattle.engine_tests.specs.Marks.{IsMarked};

use crate::cases::{Outcome, have_numbers, is_told};
use crate::claims::ensure;
use crate::errands::{Errand, key_of_row};
use crate::site::{Caller, open_site};
use crate::walking::Scan;
use buffer_pool::give_back;
use key_tuple::Mode;
use map_history::Rows;
use std::process::Abort;
use std::sync::Wait;
use tree_cursor::{Cursor, Restored, Stale};
use tree_descent::descend;

/// A short row is put.
const PUTS: Errand = Errand::Puts((b"", 100));

/// What the cursor is told while another holds the leaf of the row, which gives it back.
fn told_while_held<R: AllocGlobal + Abort + Wait>(
    rt: &R,
    walker: &mut Caller<'_>,
    cursor: &Cursor,
    other: &mut Caller<'_>,
    row: u32,
) -> Restored
    requires { IsMarked (view walker.old.pass) cursor.now }
    ensures { IsMarked (view walker.new.pass) cursor.now }
{
    let key = key_of_row(rt, row);
    let space = &other.site.space;
    let leaf = descend(space, &mut other.pass, 0, &key, Mode::Ge, rt);
    let told = walker.told(cursor);
    give_back(space, &mut other.pass, leaf.block);
    told
}

/// What a cursor on row 10 is told after each: row 30 was put, another held the leaf, and row 20 was
/// deleted. The frames begin with this clock.
fn told_of_each<R: AllocGlobal + Abort + Wait>(
    rt: &R,
    clock: u64,
) -> (Restored, Restored, Restored) {
    let (site, pass, other) = open_site(rt, 16, 16, clock);
    let mut walker = Caller::new(&site, pass);
    let mut other = Caller::new(&site, other);
    other.work_all(rt, (0, PUTS, 10, 10, 2));
    let cursor = walker.stand(rt, 10).expect(rt, "a row");
    other.work_all(rt, (0, PUTS, 30, 10, 1));
    let put = walker.told(&cursor);
    let held = told_while_held(rt, &mut walker, &cursor, &mut other, 10);
    other.work_all(rt, (0, Errand::Dels, 20, 10, 1));
    (put, held, walker.told(&cursor))
}

/// Whether another pass held the block, the one with this number.
fn is_busy(told: Restored, number: u32) -> bool {
    match told {
        Restored::BySearch {
            cause: Stale::Busy { holder },
        } => holder == number,
        _ => false,
    }
}

/// Whether the leaf is found by its clock after a put, is busy while pass 5 holds it, and has a clock
/// that is one higher after a delete.
fn is_told_each<R: AllocGlobal + Abort + Wait>(rt: &R, clock: u64) -> bool {
    let (put, held, gone) = told_of_each(rt, clock);
    is_told(put, Outcome::ByClock) && is_busy(held, 5) && is_told(gone, Outcome::Raised(clock))
}

#[test]
fn a_cursor_is_restored_by_its_clock_and_else_told_why_not(rt: HostRuntime) {
    let (put, held, gone) = told_of_each(&rt, u64::MAX);
    let last = is_told(put, Outcome::Last)
        && is_told(held, Outcome::Last)
        && is_told(gone, Outcome::Last);
    let are_so = last && is_told_each(&rt, 0) && is_told_each(&rt, 7);
    ensure(&rt, are_so, "each of the four answers");
}

/// Whether the next piece has these rows, all that are left, and its leaf was found so.
fn has_piece<R: AllocGlobal + Abort + Wait>(
    rt: &R,
    walker: &mut Caller<'_>,
    cursor: Cursor,
    wanted: Outcome,
    numbers: &[u32],
) -> bool
    requires { IsMarked (view walker.old.pass) cursor }
{
    let scan = Scan::new(rt, 10, None, 100);
    let mut rows = Rows::new(rt.alloc());
    let (told, step, _) = walker.next(rt, cursor, &scan, 100, &mut rows);
    step.end && is_told(told, wanted) && have_numbers(&rows, numbers)
}

/// Cursors on rows 10 and 20 of a leaf are both found again, also once the one had its piece. Once a
/// row is gone the other one is moved.
fn have_one_leaf<R: AllocGlobal + Abort + Wait>(rt: &R) -> bool {
    let (site, pass, other) = open_site(rt, 16, 16, 7);
    let (mut one, mut two) = (Caller::new(&site, pass), Caller::new(&site, other));
    one.work_all(rt, (0, PUTS, 10, 10, 3));
    let first = one.stand(rt, 10).expect(rt, "a row");
    let second = two.stand(rt, 20).expect(rt, "a row");
    let first_told = is_told(one.told(&first), Outcome::ByClock);
    let second_told = is_told(two.told(&second), Outcome::ByClock);
    let piece = has_piece(rt, &mut one, first, Outcome::ByClock, &[10, 20, 30]);
    one.work_all(rt, (0, Errand::Dels, 20, 10, 1));
    let moved = has_piece(rt, &mut two, second, Outcome::Raised(7), &[30]);
    first_told && second_told && piece && moved
}

#[test]
fn two_cursors_may_be_on_one_leaf(rt: HostRuntime) {
    ensure(&rt, have_one_leaf(&rt), "two cursors on one leaf");
}

//! Rows, by the changes that put them in and take them out.
ghost use Rattle.std.specs.Prelude.{◌≡◌, length, map, count_by};
ghost use Rattle.map_history.specs.Map.{AreLawful, map_after};
ghost use Rattle.map_history.specs.Operation.{operation_of};
ghost use Rattle.change_log.specs.Log.{note_of};
ghost use Rattle.gen_law.specs.Counts.{is_put, is_del};
ghost use Rattle.row_count.specs.Told.{changes_told, asked_for};

use change_log::LaneChange;
use gen_law::rows_by_changes;
use map_history::Op;

/// How many rows an index has after these changes, of which each is allowed where it stands.
pub fn rows_after(changes: &[LaneChange<'_>]) -> u64
    requires { AreLawful (changes_told (map note_of changes.now)) }
    ensures { result ≡ length (map_after (changes_told (map note_of changes.now))) }
{
    let mut puts = 0;
    let mut dels = 0;
    for change in changes {
        puts += puts_of(&change.line.op);
        dels += dels_of(&change.line.op);
    }
    // by this law
    rows_by_changes();
    puts - dels
}

/// 1 for a put, and 0 for any other operation.
fn puts_of(op: &Op) -> u64
    ensures { result ≡ count_by is_put (asked_for (operation_of op.now).ask) }
{
    match op {
        Op::Put { .. } => 1,
        _ => 0,
    }
}

/// 1 for a del, and 0 for any other operation.
fn dels_of(op: &Op) -> u64
    ensures { result ≡ count_by is_del (asked_for (operation_of op.now).ask) }
{
    match op {
        Op::Del { .. } => 1,
        _ => 0,
    }
}

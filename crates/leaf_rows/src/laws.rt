//! Laws of a leaf's rows.
ghost use Rattle.leaf_rows.specs.Laws.{RefusalsAreFull, RowsAreTakenOut, ValuesAreSet, RefusedValuesLackRoom};

/// A row is refused only where it needs more than is free.
pub fn refusals_are_full()
    ensures { RefusalsAreFull }
{}

/// A row less is a del of its key, and the clock rises.
pub fn rows_are_taken_out()
    ensures { RowsAreTakenOut }
{}

/// Another value that is no longer is a set of its key, and the clock rises unless it is as long.
pub fn values_are_set()
    ensures { ValuesAreSet }
{}

/// A value is refused only where the key's row with it has no room.
pub fn refused_values_lack_room()
    ensures { RefusedValuesLackRoom }
{}

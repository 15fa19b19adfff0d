//! Examples of single rows.
ghost use Rattle.hash_law.specs.Examples.{WorkedRows, MirroredRows};

/// What five rows that come or go change among the entries of short leaves, with left.
pub fn worked_rows()
    ensures { WorkedRows }
{}

/// The same with right, read from the end.
pub fn mirrored_rows()
    ensures { MirroredRows }
{}

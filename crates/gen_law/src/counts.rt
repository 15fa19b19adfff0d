//! How many rows there are.
ghost use Rattle.gen_law.specs.Counts.{RowsByChanges};

/// The rows of the map that lawful changes give are as many as their puts less their dels.
pub fn rows_by_changes()
    ensures { RowsByChanges }
{}

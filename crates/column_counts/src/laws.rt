//! The law of counts.
ghost use Rattle.column_counts.specs.Laws.{CountsAddUp};

/// Counts of columns in a row are the sums of those of their parts.
pub fn counts_add_up()
    ensures { CountsAddUp }
{}

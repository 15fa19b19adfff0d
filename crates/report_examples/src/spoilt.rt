//! Reports of the life of a row that are wrong in one place, and so not legal, whatever the sizes.
ghost use Rattle.report_examples.specs.Samples.{IsIllegal, row_life, row_life_told, row_life_made};
ghost use Rattle.report_examples.specs.Spoilt.{early_point, late_point, other_value, untold_search, other_change, missing_change, extra_change};

/// A get is told a point at which the row wasn't there yet.
pub fn early_point_is_illegal()
    ensures { IsIllegal row_life early_point row_life_made }
{}

/// A get is told a point past the last change.
pub fn late_point_is_illegal()
    ensures { IsIllegal row_life late_point row_life_made }
{}

/// A get is told a value that was never put.
pub fn other_value_is_illegal()
    ensures { IsIllegal row_life other_value row_life_made }
{}

/// A get is told with two dashes, which tell nothing of its search.
pub fn untold_search_is_illegal()
    ensures { IsIllegal row_life untold_search row_life_made }
{}

/// A put's entry has another value than its line.
pub fn other_change_is_illegal()
    ensures { IsIllegal row_life row_life_told other_change }
{}

/// A del that is answered `ok` has no entry.
pub fn missing_change_is_illegal()
    ensures { IsIllegal row_life row_life_told missing_change }
{}

/// An entry comes from no line.
pub fn extra_change_is_illegal()
    ensures { IsIllegal row_life row_life_told extra_change }
{}

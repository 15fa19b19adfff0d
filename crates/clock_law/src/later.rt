//! Laws of later marks.
ghost use Rattle.clock_law.specs.LaterMarks.{LaterIsAnOrder, ChangesAreLater};
ghost use Rattle.clock_law.specs.LaterMarks.{EqualClocksKeepPlaces, LostRowsRaise};

/// Each mark is a later one of itself, and a later one of a later one is a later one.
pub fn later_is_an_order()
    ensures { LaterIsAnOrder }
{}

/// A clock that rises, rows that come, and another neighbour make a later mark.
pub fn changes_are_later()
    ensures { ChangesAreLater }
{}

/// While the clock is the one kept and isn't the last, the page is the one kept, and each key that was
/// kept is at its place.
pub fn equal_clocks_keep_places()
    ensures { EqualClocksKeepPlaces }
{}

/// Where a key that was kept is gone from its place, the clock has risen.
pub fn lost_rows_raise()
    ensures { LostRowsRaise }
{}

//! Laws of places and spots, each the contract of a function that does nothing.
ghost use Rattle.index_page.specs.Laws.{SpotsTellKeys, PlacesTellRows};
ghost use Rattle.index_page.specs.LoadLaws.{LoadsAddUp, RowsHaveRoom, HalvesAreNear};
ghost use Rattle.index_page.specs.Picks.{SpotsPickRows};
ghost use Rattle.index_page.specs.Refusals.{NoneIsScattered};

/// The figures of the spot before a whole key tell whether it is on the page.
pub fn spots_tell_keys()
    ensures { SpotsTellKeys }
{}

/// Each row of a page is the one at its place.
pub fn places_tell_rows()
    ensures { PlacesTellRows }
{}

/// Loads add up.
pub fn loads_add_up()
    ensures { LoadsAddUp }
{}

/// A row has room on an empty page, and a page without room for it has two rows.
pub fn rows_have_room()
    ensures { RowsHaveRoom }
{}

/// The halves that `split_point` tells are near half of the load.
pub fn halves_are_near()
    ensures { HalvesAreNear }
{}

/// No row is scattered on a page of this form.
pub fn none_is_scattered()
    ensures { NoneIsScattered }
{}

/// The spot at the position of a tuple tells the row by which a descent goes on.
pub fn spots_pick_rows()
    ensures { SpotsPickRows }
{}

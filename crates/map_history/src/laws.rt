//! Laws of maps, changes and replies, each the contract of a function that does nothing.
ghost use Rattle.map_history.specs.Laws.{MapsAscend, ChangesAreLocal, SlicesChange, ListsGrow, RepliesStay, SearchesFind, NoSpaceFullHasRoom};

/// Keys rise along each map that changes make.
pub fn maps_ascend()
    ensures { MapsAscend }
{}

/// A change touches its key alone.
pub fn changes_are_local()
    ensures { ChangesAreLocal }
{}

/// A range of a map is changed as the map is, or stays.
pub fn slices_change()
    ensures { SlicesChange }
{}

/// A list of changes grows by what its map allows.
pub fn lists_grow()
    ensures { ListsGrow }
{}

/// A reply at a point stays when the list of changes grows.
pub fn replies_stay()
    ensures { RepliesStay }
{}

/// A search finds the first row past its cut, or the last before it.
pub fn searches_find()
    ensures { SearchesFind }
{}

/// A report in which nothing is answered `space-full` has room.
pub fn reports_without_full_have_room()
    ensures { NoSpaceFullHasRoom }
{}

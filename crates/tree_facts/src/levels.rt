//! Laws of the pages of a level, and of how many levels there are.
ghost use Rattle.tree_facts.specs.Levels.{LevelsAreFew};
ghost use Rattle.tree_facts.specs.Neighbours.{NextPagesFit, PreviousPagesFit};

/// The page after one of the trees is of its index and level, begins where that one ends, and leads
/// back to it.
pub fn next_pages_fit()
    ensures { NextPagesFit }
{}

/// The page before one of the trees is of its index and level, and ends where that one begins.
pub fn previous_pages_fit()
    ensures { PreviousPagesFit }
{}

/// Where there is a page outside the trees, each tree has fewer levels than there are page numbers.
pub fn levels_are_few()
    ensures { LevelsAreFew }
{}

//! Laws of the inner pages in frames, and of the pages that they point to.
ghost use Rattle.tree_facts.specs.InnerPages.{InnerPagesPoint, ChildrenHaveCuts};
ghost use Rattle.tree_facts.specs.InnerPages.{PointersBoundChildren};
ghost use Rattle.tree_facts.specs.Ranges.{RangesHaveCuts, CutsAreInRanges};

/// An inner page has a row, and its pointers rise and fill its bounds.
pub fn inner_pages_point()
    ensures { InnerPagesPoint }
{}

/// The row that a cut picks points to the page of the level below that has the cut: a step of a
/// descent.
pub fn children_have_cuts()
    ensures { ChildrenHaveCuts }
{}

/// The page that a row points to has the bounds of the pointer's range.
pub fn pointers_bound_children()
    ensures { PointersBoundChildren }
{}

/// A key between a row's place and the next one's is in the range of the row's pointer, where a
/// pointer with this key may be put in.
pub fn ranges_have_cuts()
    ensures { RangesHaveCuts }
{}

/// The key of a row of a page that isn't its first is in the range of the pointer to the page, so
/// that the page may be cut there.
pub fn cuts_are_in_ranges()
    ensures { CutsAreInRanges }
{}

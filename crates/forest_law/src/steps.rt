//! Laws of the steps of a holder: which changes of what is in hand follow.
ghost use Rattle.forest_law.specs.OnePut.{OnePutIsLawful};
ghost use Rattle.forest_law.specs.StepLaws.{RowChangesFollow, RestructuresFollow, PagesComeAndGo};

/// A put, a set and a del of a row of a leaf in hand follow, and so does a step that leaves all
/// pages. A put leaves the leaf's clock, and so does a set in place; a del raises it, and a set of
/// another length.
pub fn row_changes_follow()
    ensures { RowChangesFollow }
{}

/// A split, a merge, a raise, a lift and a page rearranged follow. The clock of each page that
/// loses a row rises.
pub fn restructures_follow()
    ensures { RestructuresFollow }
{}

/// A page outside the trees that comes to a frame, or goes from it, follows, and so does any page
/// that goes to its image, or comes from it.
pub fn pages_come_and_go()
    ensures { PagesComeAndGo }
{}

/// A restore of the root of a space that was just opened follows, and so does a put on it, and the
/// state after both is lawful: no part of the law is empty.
pub fn one_put_is_lawful()
    ensures { OnePutIsLawful }
{}

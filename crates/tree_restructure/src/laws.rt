//! Laws of frames that were split or raised, each the contract of a function that does nothing.
ghost use Rattle.tree_restructure.specs.Raises.{RaisesAreInHand};
ghost use Rattle.tree_restructure.specs.Splits.{SplitsAreInHand};

/// Frames that were cut, got a pointer and were linked are a split of the law, which follows.
pub fn splits_are_in_hand()
    ensures { SplitsAreInHand }
{}

/// Frames of a root that rose over another page, with its tree, are a raise of the law, which follows.
pub fn raises_are_in_hand()
    ensures { RaisesAreInHand }
{}

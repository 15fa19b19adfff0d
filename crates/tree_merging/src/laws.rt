//! Laws of frames that were merged or lifted, each the contract of a function that does nothing.
ghost use Rattle.tree_merging.specs.Siblings.{SiblingsFit};
ghost use Rattle.tree_merging.specs.MergeSteps.{MergesAreInHand};
ghost use Rattle.tree_merging.specs.Lifts.{LiftsAreInHand};

/// Pages that follow one another under one parent are neighbours, and a key parts their rows.
pub fn siblings_fit()
    ensures { SiblingsFit }
{}

/// Frames that were merged, with their parent and the page behind, are a merge of the law, which
/// follows.
pub fn merges_are_in_hand()
    ensures { MergesAreInHand }
{}

/// Frames of a root that took the rows of its only child, with its tree, are a lift of the law,
/// which follows.
pub fn lifts_are_in_hand()
    ensures { LiftsAreInHand }
{}

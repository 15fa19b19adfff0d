//! Laws of the order, of folds and of sizes, each the contract of a function that does nothing.
ghost use Rattle.key_tuple.specs.Laws.{KeysAreOrdered, PlacesAreOrdered, TuplesFollowKeys, TuplesCut};
ghost use Rattle.key_tuple.specs.FoldLaws.{FoldsFollowPrefixes};
ghost use Rattle.key_tuple.specs.SizeLaws.{SizesAreLimited, LargestSizes, SizesFollowLengths};

/// Keys stand in one line.
pub fn keys_are_ordered()
    ensures { KeysAreOrdered }
{}

/// Places stand in one line.
pub fn places_are_ordered()
    ensures { PlacesAreOrdered }
{}

/// A tuple's answers rise with the keys, and those that begin with it stand together.
pub fn tuples_follow_keys()
    ensures { TuplesFollowKeys }
{}

/// Each tuple cuts the places in two.
pub fn tuples_cut()
    ensures { TuplesCut }
{}

/// A fold depends on its prefix alone, and its lowest bit on the lowest bits of the prefix's bytes.
pub fn folds_follow_prefixes()
    ensures { FoldsFollowPrefixes }
{}

/// No record is larger than the limits allow, whatever they are.
pub fn sizes_are_limited()
    ensures { SizesAreLimited }
{}

/// The largest row and pointer, and what a page is charged for them.
pub fn largest_sizes()
    ensures { LargestSizes }
{}

/// A size depends on the lengths alone.
pub fn sizes_follow_lengths()
    ensures { SizesFollowLengths }
{}

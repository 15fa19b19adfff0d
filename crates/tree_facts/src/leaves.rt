//! Laws of the leaves in frames.
ghost use Rattle.tree_facts.specs.Leaves.{LeavesTellMaps, LeavesLeadWalks};

/// The rows of a leaf of the trees are those of its index's map in the leaf's bounds, so it tells
/// each value there, and which changes are allowed.
pub fn leaves_tell_maps()
    ensures { LeavesTellMaps }
{}

/// A walk from leaf to leaf, over leaves without a row that counts, finds what the map has.
pub fn leaves_lead_walks()
    ensures { LeavesLeadWalks }
{}

//! Laws of hashed blocks and their partitions.
ghost use Rattle.hash_law.specs.BlockLaws.{FiguresAreOwedNothing, NodesLeadToRows};
ghost use Rattle.hash_law.specs.BlockLaws.{OthersAreOwedNothing, SharesAddUp};

/// Where the hash is exact, a node leads to a row of its block's leaf.
pub fn nodes_lead_to_rows()
    ensures { NodesLeadToRows }
{}

/// A block that isn't hashed, or for an index of another partition, is owed nothing.
pub fn others_are_owed_nothing()
    ensures { OthersAreOwedNothing }
{}

/// What a block is owed hangs on its page, its index and its parameters alone.
pub fn figures_are_owed_nothing()
    ensures { FiguresAreOwedNothing }
{}

/// The nodes of a partition are what it owes all blocks together, and add up with the spare ones.
pub fn shares_add_up()
    ensures { SharesAddUp }
{}

//! Laws of the bag of a partition.
ghost use Rattle.hash_law.specs.Sums.{BlocksAddUp, BlocksChangeAlone, BlocksChangeTogether};
ghost use Rattle.hash_law.specs.Sums.{EntriesAreOwn, RoomIsExact};

/// What a block has entered is its own.
pub fn entries_are_own()
    ensures { EntriesAreOwn }
{}

/// Nodes that are right block by block are the sum over the blocks.
pub fn blocks_add_up()
    ensures { BlocksAddUp }
{}

/// What one block exchanges, its partition exchanges, and no other block is touched.
pub fn blocks_change_alone()
    ensures { BlocksChangeAlone }
{}

/// The same of two blocks at once.
pub fn blocks_change_together()
    ensures { BlocksChangeTogether }
{}

/// There is room for what comes exactly where all nodes together have it.
pub fn room_is_exact()
    ensures { RoomIsExact }
{}

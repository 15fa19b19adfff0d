//! What a caller's step owes the law of the hash, as the contract of a function that does nothing.
ghost use Rattle.hash_maintain.specs.Hands.{UpkeepKeepsTheHash};
ghost use Rattle.hash_maintain.specs.MoveLaws.{MovesKeepTheHash};

use forest_world::hands_keep_the_hash;
use hash_upkeep::entries_are_owed;

/// What was kept up in hand keeps the hash exact, so it may be settled or committed.
pub fn upkeep_keeps_the_hash()
    ensures { UpkeepKeepsTheHash }
{
    hands_keep_the_hash();
}

/// Where a partition keeps up with rows that moved between two blocks, the hash is exact, so it may be
/// settled.
pub fn moves_keep_the_hash()
    ensures { MovesKeepTheHash }
{
    hands_keep_the_hash();
    entries_are_owed();
}

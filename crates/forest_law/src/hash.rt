//! Laws of the hash: what keeps it exact, and what a lawful state tells of it.
ghost use Rattle.forest_law.specs.HashLaws.{HashIsKept, BlocksAskTheSame};
ghost use Rattle.forest_law.specs.HashLaws.{HashesAreExact, NodesLeadToFrames};

use hash_law::others_are_owed_nothing;

/// A step that hashes nothing keeps the hash exact, and so does one in which a held partition keeps
/// up. A hashed frame's rows change with its partition in hand alone.
pub fn hash_is_kept()
    ensures { HashIsKept }
{}

/// A block asks for the same nodes where it isn't hashed, where its page and how it is hashed stay,
/// and where it is hashed in other partitions.
pub fn blocks_ask_the_same()
    ensures { BlocksAskTheSame }
{
    others_are_owed_nothing();
}

/// In a lawful state each frame is tidy, each partition in order, and exact of each block.
pub fn hashes_are_exact()
    ensures { HashesAreExact }
{}

/// A node of a partition leads to its block's frame, which has a row that it names.
pub fn nodes_lead_to_frames()
    ensures { NodesLeadToFrames }
{}

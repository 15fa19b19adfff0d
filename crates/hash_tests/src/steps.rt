//! What a table of chains or a partition is asked, one step after the other.
use chain_arena::Node;

/// What each of a million nodes does.
#[derive(Clone, Copy)]
pub(crate) enum Round {
    Comes,
    IsFound,
    Goes,
}

/// What is asked, mostly about the node of a fold and a block, and what it has to tell.
#[derive(Clone, Copy)]
pub(crate) enum Step {
    /// A node comes, for which there is room.
    Add(u64, u32),
    /// Whether a node is there, which goes then.
    Take(u64, u32, bool),
    /// Of which block the node with the fold is that goes out of this one, if one does.
    TakeOf(u64, u32, Option<u32>),
    /// How many nodes the block has, which go then.
    Remove(u32, u32),
    /// Of which block the node is that is found by the fold, if one is.
    Find(u64, Option<u32>),
    /// How many more nodes there is room for.
    Spare(u32),
    /// How many cells a table has, and how many it gets. No partition is asked for that,
    Resize(u32, u32),
    /// nor for a million nodes of 1,000 blocks, which come, are found, or go, but for those of block 7.
    Million(Round),
}

/// The cells and the nodes of a table or a partition, and what it does one after the other.
pub(crate) type Script = (u32, u32, &'static [Step]);

/// The node of a fold and a block, the place of which is the fold too.
pub(crate) fn node(fold: u64, block: u32) -> Node {
    Node {
        fold,
        block,
        place: (fold % 65_536) as u16,
    }
}

/// This is the node of the fold and a block, or none.
pub(crate) fn is_node(found: Option<Node>, fold: u64, block: Option<u32>) -> bool {
    match block {
        Some(block) => found == Some(node(fold, block)),
        None => found.is_none(),
    }
}

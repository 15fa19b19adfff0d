//! A node.

/// A place in a block, with the fold that it is found by.
#[derive(Clone, Copy, PartialEq, Eq)]
pub struct Node {
    pub fold: u64,
    pub block: u32,
    pub place: u16,
}

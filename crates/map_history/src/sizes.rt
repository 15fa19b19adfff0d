//! The sizes that a run is opened with.

/// The settings of a schema.
#[derive(Clone, Copy, PartialEq, Eq)]
pub struct Sizes {
    /// Buffer blocks.
    pub blocks: u32,
    /// Pages in all.
    pub pages: u32,
    /// Partitions of the hash.
    pub parts: u32,
    /// Cells of each partition.
    pub cells: u32,
    /// Nodes of each partition.
    pub nodes: u32,
    /// Bits of a fold that are kept.
    pub fold_bits: u32,
    /// The most changes of an index.
    pub max_changes: u32,
}

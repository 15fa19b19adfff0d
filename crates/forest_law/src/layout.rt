//! How many there are of each, and the numbers of the objects.
ghost use Rattle.std.specs.Prelude.{◌≡◌, ◌^◌, ◌<◌, ◌≤◌, ◌+◌, ◌%◌, IfOk, length};
ghost use Rattle.index_law.specs.Shape.{shape_for};
ghost use Rattle.hash_law.specs.Blocks.{part_for};
ghost use Rattle.forest_law.specs.Numbers.{pool_id, tree_id, part_id, frame_id};

use key_tuple::NoMemory;
use map_history::Sizes;
use std::alloc::Global;
use std::marker::Model;

/// How many indexes, pages, blocks and partitions there are. It is fixed for good, and it alone
/// knows which number an object has: the pool first, then the trees, then the partitions, then the
/// frames.
#[derive(Drop)]
pub struct ForestLayout {
    pub(crate) indexes: u32,
    pub(crate) fields: Vec<u8>,
    pub(crate) pages: u32,
    pub(crate) parts: u32,
    pub(crate) blocks: u32,
    pub(crate) cells: u32,
    pub(crate) nodes: u32,
    pub(crate) fold_bits: u8,
}

impl Model for ForestLayout {
    ghost use Rattle.index_law.specs.Shape.{Shape};
    ghost use Rattle.forest_law.specs.Numbers.{shape_of_layout, IsLayout};

    ghost Value = { Shape };

    ghost view = { shape_of_layout };

    ghost invariant = { IsLayout };
}

impl ForestLayout {
    /// The shape of some sizes, for indexes with so many fields each.
    pub fn try_new(alloc: Global, sizes: &Sizes, fields: &[u8]) -> Result<ForestLayout, NoMemory>
        requires few { length fields.now < 2 ^ 32 }
        requires cells { 1 ≤ sizes.now.cells }
        requires bits { sizes.now.fold_bits < 256 }
        ensures { IfOk result (λ layout. layout ≡ shape_for sizes.now fields.now) }
    {
        Ok(ForestLayout {
            indexes: fields.len() as u32,
            fields: Vec::from_slice(alloc, fields)?,
            pages: sizes.pages,
            parts: sizes.parts,
            blocks: sizes.blocks,
            cells: sizes.cells,
            nodes: sizes.nodes,
            fold_bits: sizes.fold_bits as u8,
        })
    }

    /// How many page numbers there are.
    pub fn pages(&self) -> u32
        ensures { result ≡ self.now.pages }
    {
        self.pages
    }

    /// The number of the pool.
    pub fn pool_id(&self) -> u32
        ensures { result ≡ pool_id }
    {
        0
    }

    /// The number of an index's tree.
    pub fn tree_id(&self, index: u32) -> u32
        requires { tree_id index < 2 ^ 32 }
        ensures { result ≡ tree_id index }
    {
        1 + index
    }

    /// The partition of an index.
    pub fn part_for(&self, index: u32) -> u32
        requires { 0 < self.now.parts }
        ensures { result ≡ part_for self.now.parts index }
    {
        index % self.parts
    }

    /// The number of a partition.
    pub fn part_id(&self, part: u32) -> u32
        requires { part_id self.now part < 2 ^ 32 }
        ensures { result ≡ part_id self.now part }
    {
        1 + self.indexes + part
    }

    /// How many bits a fold has.
    pub fn fold_bits(&self) -> u8
        ensures { result ≡ self.now.fold_bits }
    {
        self.fold_bits
    }

    /// The number of a block's frame.
    pub fn frame_id(&self, block: u32) -> u32
        requires { frame_id self.now block < 2 ^ 32 }
        ensures { result ≡ frame_id self.now block }
    {
        1 + self.indexes + self.parts + block
    }
}

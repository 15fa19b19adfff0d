//! The partition.
ghost use Rattle.std.specs.Prelude.{◌≡◌, ◌+◌, ◌≤◌, ◌<◌, ◌∷◌, length, IfNone, IfOk, IfSome};
ghost use Rattle.std.specs.Bool.{OnFalse, OnTrue};
ghost use Rattle.chain_arena.specs.Bag.{HasNoBlock, HasNoFold, HasNoFoldOf, HasNode, SameBag, SameOutsideBlock, count_of};
ghost use Rattle.hash_partition.specs.Part.{KeepsShape, empty_part, stamp_of, stamped};

use chain_arena::{ChainTable, Node};
use key_tuple::NoMemory;
use std::alloc::Global;
use std::marker::Model;

/// The nodes of the leaves that are hashed for some indexes, and of each block a stamp, if it has
/// one.
pub struct Partition {
    table: ChainTable,
    stamps: Vec<Option<u64>>,
}

// Written out, so that a crate above drops it by one call.
impl Drop for Partition {
    fn drop(self) {
        let Self {
            table: _,
            stamps: _,
        } = self;
    }
}

impl Model for Partition {
    ghost use Rattle.hash_partition.specs.Part.{Part};

    ghost Value = { Part };

    ghost use Rattle.hash_partition.specs.Partition.{part_of_fields};

    ghost view = { part_of_fields };
}

impl Partition {
    /// A partition without nodes and stamps. This takes all the memory that it needs.
    pub fn new(alloc: Global, cells: u32, nodes: u32, blocks: u32) -> Result<Partition, NoMemory>
        requires { 1 ≤ cells }
        ensures ok { IfOk result (λ part. part ≡ empty_part nodes blocks) }
    {
        let Ok(table) = ChainTable::new(alloc, cells, nodes) else {
            return Err(NoMemory);
        };
        let stamps = Vec::from_elem(alloc, None, blocks as usize)?;
        Ok(Partition { table, stamps })
    }

    /// How many more nodes it takes.
    pub fn spare(&self) -> u32
        ensures { result ≡ self.now.spare }
    {
        self.table.spare()
    }

    /// Enters a node, at the head of its chain. The caller sees by `spare` that there is room.
    pub fn enter(&mut self, node: Node)
        requires { 1 ≤ self.old.spare }
        ensures bag { SameBag self.new.nodes (node ∷ self.old.nodes) }
        ensures spare { self.new.spare + 1 ≡ self.old.spare }
        ensures kept { KeepsShape self.old self.new }
    {
        self.table.add(node);
    }

    /// Takes the node out once, and answers whether it was there.
    pub fn leave(&mut self, node: &Node) -> bool
        ensures taken { OnTrue result (SameBag self.old.nodes (node.now ∷ self.new.nodes)) }
        ensures spare { OnTrue result (self.new.spare ≡ self.old.spare + 1) }
        ensures kept { OnTrue result (KeepsShape self.old self.new) }

        // Where the node is absent, nothing changes.
        ensures absent { OnFalse result (count_of node.now self.old.nodes ≡ 0) }
        ensures unchanged { OnFalse result (self.new ≡ self.old) }
    {
        self.table.take_out(node)
    }

    /// Takes one node of the block with that fold out, and answers which.
    pub fn leave_of(&mut self, fold: u64, block: u32) -> Option<Node>
        ensures fold { IfSome result (λ node. (node.fold ≡ fold) × (node.block ≡ block)) }
        ensures taken { IfSome result (λ node. SameBag self.old.nodes (node ∷ self.new.nodes)) }
        ensures spare { IfSome result (λ node. self.new.spare ≡ self.old.spare + 1) }
        ensures kept { IfSome result (λ node. KeepsShape self.old self.new) }

        // Where the block has none with that fold, nothing changes.
        ensures absent { IfNone result (HasNoFoldOf self.old.nodes fold block) }
        ensures unchanged { IfNone result (self.new ≡ self.old) }
    {
        self.table.take_of(fold, block)
    }

    /// Takes all nodes of the block out, and answers how many they were. The block's stamp stays.
    /// All nodes are looked at: who knows the block's rows takes their nodes out one by one.
    pub fn leave_block(&mut self, block: u32) -> u32
        ensures gone { HasNoBlock self.new.nodes block }
        ensures others { SameOutsideBlock self.new.nodes self.old.nodes block }
        ensures spare { self.new.spare ≡ self.old.spare + result }
        ensures kept { KeepsShape self.old self.new }
    {
        self.table.remove_block(block)
    }

    /// A node with that fold. Of several it is the one that was entered last.
    pub fn find(&self, fold: u64) -> Option<Node>
        ensures none { IfNone result (HasNoFold self.now.nodes fold) }
        ensures some { IfSome result (λ node. (node.fold ≡ fold) × HasNode self.now.nodes node) }
    {
        self.table.find(fold)
    }

    /// The stamp of a block.
    pub fn stamp(&self, block: u32) -> Option<u64>
        requires { block < length self.now.stamps }
        ensures { result ≡ stamp_of self.now block }
    {
        self.stamps[block as usize]
    }

    /// Gives a block a stamp, or takes it away.
    pub fn set_stamp(&mut self, block: u32, clock: Option<u64>)
        requires { block < length self.old.stamps }
        ensures { self.new ≡ stamped self.old block clock }
    {
        self.stamps[block as usize] = clock;
    }
}

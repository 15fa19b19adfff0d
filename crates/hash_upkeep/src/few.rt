//! At most two nodes.
ghost use Rattle.std.specs.Prelude.{◌≡◌, ◌+◌, ◌≤◌, [], length, option_to_list, ℕ};
ghost use Rattle.chain_arena.specs.declared.node.Node.{Node};
ghost use Rattle.chain_arena.specs.Bag.{count_of};
ghost use Rattle.hash_partition.specs.Part.{KeepsShape};
ghost use Rattle.hash_law.specs.Changes.{Exchanges};
ghost use Rattle.hash_upkeep.specs.Change.{few_nodes};

use chain_arena::Node;
use hash_partition::Partition;

/// At most two nodes.
#[derive(Clone, Copy)]
pub(crate) struct Few {
    pub(crate) first: Option<Node>,
    pub(crate) second: Option<Node>,
}

impl Few {
    /// How many they are.
    pub(crate) fn count(&self) -> u32
        ensures { result ≡ length (few_nodes self.now) }
    {
        let first = if self.first.is_some() { 1 } else { 0 };
        let second = if self.second.is_some() { 1 } else { 0 };
        first + second
    }

    /// Takes them out of a partition that has them.
    pub(crate) fn leave(&self, part: &mut Partition)
        requires there { (n : Node)
            → count_of n (few_nodes self.now) ≤ count_of n part.old.nodes }
        ensures nodes { Exchanges part.old.nodes (few_nodes self.now) [] part.new.nodes }
        ensures spare { part.new.spare ≡ part.old.spare + length (few_nodes self.now) }
        ensures shape { KeepsShape part.old part.new }
    {
        leave_one(part, &self.first);
        leave_one(part, &self.second);
    }

    /// Enters them into a partition that has room.
    pub(crate) fn enter(&self, part: &mut Partition)
        requires room { length (few_nodes self.now) ≤ part.old.spare }
        ensures nodes { Exchanges part.old.nodes [] (few_nodes self.now) part.new.nodes }
        ensures shape { KeepsShape part.old part.new }
    {
        enter_one(part, &self.first);
        enter_one(part, &self.second);
    }
}

/// Takes a node out that is there, if there is one.
fn leave_one(part: &mut Partition, node: &Option<Node>)
    requires there { (n : Node)
        → count_of n (option_to_list node.now) ≤ count_of n part.old.nodes }
    ensures nodes { Exchanges part.old.nodes (option_to_list node.now) [] part.new.nodes }
    ensures spare { part.new.spare ≡ part.old.spare + length (option_to_list node.now) }
    ensures shape { KeepsShape part.old part.new }
{
    if let Some(node) = node {
        part.leave(node);
    }
}

/// Enters a node, if there is one.
fn enter_one(part: &mut Partition, node: &Option<Node>)
    requires room { length (option_to_list node.now) ≤ part.old.spare }
    ensures nodes { Exchanges part.old.nodes [] (option_to_list node.now) part.new.nodes }
    ensures spare { part.new.spare + length (option_to_list node.now) ≡ part.old.spare }
    ensures shape { KeepsShape part.old part.new }
{
    if let Some(node) = node {
        part.enter(*node);
    }
}

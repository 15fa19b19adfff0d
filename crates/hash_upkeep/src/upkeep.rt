//! Some nodes of a block go, and others come where there is room.
ghost use Rattle.std.specs.Prelude.{◌≡◌, ◌≤◌, ℕ};
ghost use Rattle.chain_arena.specs.declared.node.Node.{Node};
ghost use Rattle.chain_arena.specs.Bag.{HasNoBlock, SameOutsideBlock, count_of};
ghost use Rattle.hash_partition.specs.Part.{KeepsShape};
ghost use Rattle.hash_law.specs.Changes.{Exchanges};
ghost use Rattle.hash_law.specs.Sums.{AreOfBlock};
ghost use Rattle.hash_upkeep.specs.Hashing.{CanHash, row_nodes};
ghost use Rattle.hash_upkeep.specs.Cover.{AreCovered};
ghost use Rattle.hash_upkeep.specs.Change.{few_nodes};
ghost use Rattle.hash_upkeep.specs.Upkeep.{IfKept, upkeep_of};

use crate::few::Few;
use crate::hashing::Hashing;
use crate::leaving::drop_block;
use hash_partition::Partition;
use index_page::Page;

/// Whether a partition kept up with a change of rows.
#[derive(Clone, Copy, PartialEq, Eq)]
pub enum Upkeep {
    /// Its nodes are those of the rows as they are now.
    Kept,
    /// More nodes were needed than were spare, and the blocks have none left.
    Dropped { need: u32, spare: u32 },
}

/// Takes nodes of a block out and then enters others, or drops the block where there is no room.
pub(crate) fn swap_nodes(
    part: &mut Partition,
    page: &Page,
    how: &Hashing,
    goes: &Few,
    comes: &Few,
) -> Upkeep
    requires hash { CanHash how.now page.now }
    requires covered { AreCovered how.now.block part.old.nodes (row_nodes how.now page.now.rows) }
    requires there { (n : Node) → count_of n (few_nodes goes.now) ≤ count_of n part.old.nodes }
    requires goes { AreOfBlock how.now.block (few_nodes goes.now) }
    requires comes { AreOfBlock how.now.block (few_nodes comes.now) }
    ensures answer { result
        ≡ upkeep_of part.old.spare (few_nodes goes.now) (few_nodes comes.now) }
    ensures nodes { IfKept result
        (Exchanges part.old.nodes (few_nodes goes.now) (few_nodes comes.now) part.new.nodes)
        (HasNoBlock part.new.nodes how.now.block) }
    ensures others { SameOutsideBlock part.new.nodes part.old.nodes how.now.block }
    ensures shape { KeepsShape part.old part.new }
{
    goes.leave(part);
    let need = comes.count();
    let spare = part.spare();
    if spare < need {
        drop_block(part, page, how);
        return Upkeep::Dropped { need, spare };
    }
    comes.enter(part);
    Upkeep::Kept
}

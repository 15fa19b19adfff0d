//! Nodes of a block that leave by their folds, at whatever places.
ghost use Rattle.std.specs.Prelude.{◌≡◌, ◌≢◌, ◌≤◌, [], ℕ};
ghost use Rattle.chain_arena.specs.declared.node.Node.{Node};
ghost use Rattle.chain_arena.specs.Bag.{HasNoFoldOf, SameOutsideBlock, count_of};
ghost use Rattle.hash_partition.specs.Part.{KeepsShape};
ghost use Rattle.hash_upkeep.specs.Hashing.{CanHash, CanHashIf, nodes_if, row_nodes};
ghost use Rattle.hash_upkeep.specs.Cover.{AreCovered, LosesFolds, Renews};

use crate::hashing::Hashing;
use crate::walk::RowWalk;
use hash_partition::Partition;
use index_page::Page;

/// Takes all nodes of the block with that fold out.
fn leave_fold(part: &mut Partition, fold: u64, block: u32)
    ensures gone { HasNoFoldOf part.new.nodes fold block }
    ensures others { (n : Node) → n.fold ≢ fold
        → count_of n part.new.nodes ≡ count_of n part.old.nodes }
    ensures other_blocks { SameOutsideBlock part.new.nodes part.old.nodes block }
    ensures shape { KeepsShape part.old part.new }
{
    while part.leave_of(fold, block).is_some() {}
}

/// Takes all nodes of the block out that have the fold of one of the page's rows, run by run.
pub(crate) fn leave_rows(part: &mut Partition, page: &Page, how: &Hashing)
    requires hash { CanHash how.now page.now }
    ensures { LosesFolds how.now.block (row_nodes how.now page.now.rows) part.old part.new }
{
    let mut walk = RowWalk::before(page, how);
    while let Some(node) = walk.next_entry(page, how) {
        leave_fold(part, node.fold, how.block);
    }
}

/// Takes all nodes of a block out, each of which has the fold of one of the page's rows.
pub fn drop_block(part: &mut Partition, page: &Page, how: &Hashing)
    requires hash { CanHash how.now page.now }
    requires covered { AreCovered how.now.block part.old.nodes (row_nodes how.now page.now.rows) }
    ensures { Renews how.now.block [] part.old part.new }
{
    leave_rows(part, page, how);
}

/// Takes the nodes of the page's rows out as `leave_rows` does, if the block is hashed.
pub(crate) fn leave_if(part: &mut Partition, page: &Page, how: &Option<Hashing>, block: u32)
    requires hash { CanHashIf how.now block page.now }
    ensures { LosesFolds block (nodes_if how.now page.now.rows) part.old part.new }
{
    if let Some(how) = how {
        leave_rows(part, page, how);
    }
}

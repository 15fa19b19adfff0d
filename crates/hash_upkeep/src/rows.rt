//! A partition keeps up with one row more or less of a block.
ghost use Rattle.std.specs.Prelude.{◌≡◌, IsSome, List, length};
ghost use Rattle.index_page.specs.Rows.{find_row};
ghost use Rattle.index_page.specs.Changes.{rows_without};
ghost use Rattle.chain_arena.specs.declared.node.Node.{Node};
ghost use Rattle.hash_law.specs.Entries.{NodesAt};
ghost use Rattle.hash_upkeep.specs.Hashing.{CanHash, row_entries};
ghost use Rattle.hash_upkeep.specs.Cover.{Renews};
ghost use Rattle.hash_upkeep.specs.Upkeep.{IsRowAnswer, LacksIfDropped, kept_entries, upkeep_of};

use crate::change::row_change_at;
use crate::hashing::Hashing;
use crate::upkeep::{Upkeep, swap_nodes};
use hash_partition::Partition;
use index_page::{Page, Place};

/// Keeps up with the row at a place, which came. Until then the partition was exact.
pub fn on_insert(part: &mut Partition, page: &Page, place: Place, how: &Hashing) -> Upkeep
    requires row { IsSome (find_row place page.now.rows) }
    requires hash { CanHash how.now page.now }
    requires exact { NodesAt how.now.block part.old.nodes
        (row_entries how.now (rows_without place page.now.rows)) }
    ensures answer { IsRowAnswer how.now page.now.rows place
        (λ brought driven. upkeep_of part.old.spare driven brought) result }
    ensures room { LacksIfDropped result part.new.spare
        (length (row_entries how.now page.now.rows)) }
    ensures part { Renews how.now.block
        (kept_entries result (row_entries how.now page.now.rows)) part.old part.new }
{
    page.is_in_order();
    let change = row_change_at(page, place, how);
    swap_nodes(part, page, how, &change.driven, &change.brought)
}

/// Keeps up with the row at a place, which is about to go. Once it is gone the partition is exact. There
/// is room: a row that goes brings in no more than it drives out.
pub fn on_delete(part: &mut Partition, page: &Page, place: Place, how: &Hashing) -> Upkeep
    requires row { IsSome (find_row place page.now.rows) }
    requires hash { CanHash how.now page.now }
    requires exact { NodesAt how.now.block part.old.nodes (row_entries how.now page.now.rows) }
    ensures answer { IsRowAnswer how.now page.now.rows place
        (λ brought driven. upkeep_of part.old.spare brought driven) result }
    ensures kept { result ≡ Upkeep.Kept }
    ensures part { Renews how.now.block
        (kept_entries result (row_entries how.now (rows_without place page.now.rows)))
        part.old part.new }
{
    page.is_in_order();
    let change = row_change_at(page, place, how);
    swap_nodes(part, page, how, &change.brought, &change.driven)
}

//! A leaf is hashed.
ghost use Rattle.std.specs.Prelude.{◌≡◌, ◌≢◌, Some, length};
ghost use Rattle.hash_law.specs.Entries.{NodesAt};
ghost use Rattle.hash_upkeep.specs.Hashing.{CanHash, CanHashIf, as_built, entries_if, row_entries};
ghost use Rattle.hash_upkeep.specs.Cover.{Renews};
ghost use Rattle.hash_upkeep.specs.Build.{BuildsAnew, LacksIfFull, built_after};

use crate::built::Build;
use crate::entering::enter_all;
use crate::hashing::{Hashing, hashing_if};
use crate::leaving::leave_if;
use hash_partition::Partition;
use index_page::Page;
use key_tuple::Params;

/// Hashes a leaf anew, of a block that is hashed with `built`, if it is. It has `need` entries, as
/// `count_entries` tells: they are counted before the partition is held, so that it is held for a
/// short time.
pub fn build(
    part: &mut Partition,
    page: &Page,
    built: Option<Params>,
    how: &Hashing,
    need: u32,
) -> Build
    requires hash { CanHash how.now page.now }
    requires was { CanHashIf (as_built how.now built) how.now.block page.now }
    requires exact { NodesAt how.now.block part.old.nodes
        (entries_if (as_built how.now built) page.now.rows) }
    requires need { need ≡ length (row_entries how.now page.now.rows) }
    ensures not_needed { built ≡ Some how.now.params
        → (result ≡ Build.NotNeeded) × (part.new ≡ part.old) }
    ensures anew { built ≢ Some how.now.params
        → BuildsAnew how.now page.now.rows part.old part.new result }
    ensures room { LacksIfFull result part.new.spare
        (length (row_entries how.now page.now.rows)) }
    ensures part { Renews how.now.block
        (entries_if (as_built how.now (built_after result how.now.params)) page.now.rows)
        part.old part.new }
{
    if built == Some(how.params) {
        return Build::NotNeeded;
    }
    let was = hashing_if(how.index, how.block, how.bits, built);
    leave_if(part, page, &was, how.block);
    let spare = part.spare();
    if spare < need {
        return Build::ArenaFull { need, spare };
    }
    enter_all(part, page, how);
    Build::Built { nodes: need }
}

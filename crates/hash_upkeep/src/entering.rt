//! All entries of a leaf, counted and entered.
ghost use Rattle.std.specs.Prelude.{◌≡◌, ◌≤◌, ◌<◌, [], length};
ghost use Rattle.hash_partition.specs.Part.{KeepsShape};
ghost use Rattle.hash_law.specs.Changes.{Exchanges};
ghost use Rattle.hash_upkeep.specs.Hashing.{CanHash, CanHashIf, entries_if, row_entries};

use crate::hashing::Hashing;
use crate::walk::RowWalk;
use hash_partition::Partition;
use index_page::Page;

/// How many entries a leaf has.
pub fn count_entries(page: &Page, how: &Hashing) -> u32
    requires hash { CanHash how.now page.now }
    ensures number { result ≡ length (row_entries how.now page.now.rows) }
    ensures few { result < 65536 }
{
    let _rows = page.count();
    let mut walk = RowWalk::before(page, how);
    let mut count = 0;
    while let Some(_) = walk.next_entry(page, how) {
        count += 1;
    }
    count
}

/// Enters all entries of a leaf in the order of its rows, each at the head of its chain. The caller
/// sees by `count_entries` that there is room.
pub fn enter_all(part: &mut Partition, page: &Page, how: &Hashing)
    requires hash { CanHash how.now page.now }
    requires room { length (row_entries how.now page.now.rows) ≤ part.old.spare }
    ensures nodes { Exchanges part.old.nodes [] (row_entries how.now page.now.rows)
        part.new.nodes }
    ensures shape { KeepsShape part.old part.new }
{
    let mut walk = RowWalk::before(page, how);
    while let Some(node) = walk.next_entry(page, how) {
        part.enter(node);
    }
}

/// How many entries a leaf has that may be hashed.
pub(crate) fn count_if(page: &Page, how: &Option<Hashing>, block: u32) -> u32
    requires hash { CanHashIf how.now block page.now }
    ensures number { result ≡ length (entries_if how.now page.now.rows) }
    ensures few { result < 65536 }
{
    match how {
        Some(how) => count_entries(page, how),
        None => 0,
    }
}

/// Enters all entries of a leaf that may be hashed.
pub(crate) fn enter_if_hashed(part: &mut Partition, page: &Page, how: &Option<Hashing>, block: u32)
    requires hash { CanHashIf how.now block page.now }
    requires room { length (entries_if how.now page.now.rows) ≤ part.old.spare }
    ensures nodes { Exchanges part.old.nodes [] (entries_if how.now page.now.rows) part.new.nodes }
    ensures shape { KeepsShape part.old part.new }
{
    if let Some(how) = how {
        enter_all(part, page, how);
    }
}

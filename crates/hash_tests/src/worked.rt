//! Worked leaves: their entries are built, and kept up with a row.
ghost use Rattle.std.specs.Prelude.{◌≡◌, []};
ghost use Rattle.key_tuple.specs.Fold.{asked_fields};
ghost use Rattle.hash_law.specs.Entries.{NodesAt};
ghost use Rattle.hash_upkeep.specs.Hashing.{CanHash, row_entries};

use crate::claims::ensure;
use crate::rows::{leaf_of, put};
use crate::shared::part_of;
use hash_partition::Partition;
use hash_upkeep::{
    Build, Hashing, Upkeep, build, count_entries, drop_block, exact_nodes_are_covered, on_delete,
    on_insert,
};
use index_page::Page;
use key_tuple::Params;
use std::process::Abort;

/// The nodes of a partition, and what is told where a leaf of a, b and c that isn't hashed is built, and
/// built again.
type Twice = (u32, Build, Build);

static BUILDS: [Twice; 2] = [
    (3, Build::Built { nodes: 3 }, Build::NotNeeded),
    (
        2,
        Build::ArenaFull { need: 3, spare: 2 },
        Build::ArenaFull { need: 3, spare: 2 },
    ),
];

#[test]
fn a_leaf_is_built_once_where_it_has_room(rt: HostRuntime) {
    for row in BUILDS.iter() {
        ensure(&rt, builds_twice(&rt, row), "these builds");
    }
}

/// The nodes of a partition, whether a row of b goes again once it came, what the last of both is told,
/// and what is spare then.
type Row = (u32, bool, Upkeep, u32);

/// The lowest bit of the folds of a, c and e is 1, and that of b is 0. So a is the one entry of the
/// three, and b brings itself in and parts c from a.
static ROWS: [Row; 3] = [
    (3, false, Upkeep::Kept, 0),
    (2, false, Upkeep::Dropped { need: 2, spare: 1 }, 2),
    (3, true, Upkeep::Kept, 2),
];

#[test]
fn a_row_in_a_run_brings_two_in_and_takes_two_out(rt: HostRuntime) {
    for row in ROWS.iter() {
        ensure(&rt, keeps_up(&rt, row), "this upkeep");
    }
}

#[test]
fn a_dropped_leaf_has_no_entries(rt: HostRuntime) {
    ensure(&rt, drops(&rt) == 5, "five spare nodes");
}

fn hashing(bits: u8) -> Hashing
    ensures bits { result.bits ≡ bits }
    ensures asked { asked_fields result.params ≡ 1 }
{
    Hashing {
        index: 0,
        block: 5,
        params: Params {
            fields: 1,
            bytes: 0,
            left: true,
        },
        bits,
    }
}

// Builds a leaf of a, b and c that isn't hashed, and builds it again: whether the row tells what comes of it.
fn builds_twice<R: AllocGlobal + Abort>(rt: &R, row: &Twice) -> bool {
    let (nodes, once, again) = *row;
    let (page, mut part) = (leaf_of(rt, 1, b"abc"), part_of(rt, 4, nodes));
    let how = hashing(64);
    let need = count_entries(&page, &how);
    let first = build(&mut part, &page, None, &how, need);
    let built = first.built_after(how.params);
    let second = build(&mut part, &page, built, &how, need);
    first == once && second == again
}

// Builds a leaf that isn't hashed, for which there is room.
fn build_first<R: Abort>(rt: &R, part: &mut Partition, page: &Page, how: &Hashing)
    requires hash { CanHash how.now page.now }
    requires exact { NodesAt how.now.block part.old.nodes [] }
    ensures { NodesAt how.now.block part.new.nodes (row_entries how.now page.now.rows) }
{
    let told = build(part, page, None, how, count_entries(page, how));
    ensure(rt, matches!(told, Build::Built { .. }), "a build");
}

// Keeps up with the row of b that comes, and where it is to, goes again.
fn comes<R: AllocGlobal + Abort>(
    rt: &R,
    part: &mut Partition,
    page: &mut Page,
    how: &Hashing,
    goes: bool,
) -> Upkeep
    requires hash { CanHash how.now page.old }
    requires exact { NodesAt how.now.block part.old.nodes (row_entries how.now page.old.rows) }
{
    let place = put(rt, page, b"b");
    match on_insert(part, page, place, how) {
        Upkeep::Kept if goes => on_delete(part, page, place, how),
        told => told,
    }
}

// Builds a leaf of a, c and e with folds of one bit, and puts b in: whether the row tells what comes of it.
fn keeps_up<R: AllocGlobal + Abort>(rt: &R, row: &Row) -> bool {
    let (nodes, goes, upkeep, spare) = *row;
    let (mut page, mut part) = (leaf_of(rt, 1, b"ace"), part_of(rt, 4, nodes));
    let how = hashing(1);
    build_first(rt, &mut part, &page, &how);
    let told = comes(rt, &mut part, &mut page, &how, goes);
    let left = part.spare();
    told == upkeep && left == spare
}

// Builds a leaf of a, b and c with five nodes, and drops it: what is spare then.
fn drops<R: AllocGlobal + Abort>(rt: &R) -> u32 {
    let (page, mut part) = (leaf_of(rt, 1, b"abc"), part_of(rt, 4, 5));
    let how = hashing(64);
    build_first(rt, &mut part, &page, &how);
    exact_nodes_are_covered();
    drop_block(&mut part, &page, &how);
    part.spare()
}

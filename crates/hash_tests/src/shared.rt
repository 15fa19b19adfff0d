//! A partition that a leaf shares with another block, and claims of it.
ghost use Rattle.std.specs.Prelude.{◌≡◌};
ghost use Rattle.hash_partition.specs.Part.{empty_part};

use crate::claims::ensure;
use chain_arena::Node;
use hash_partition::Partition;
use std::process::Abort;

/// So many nodes the partition has.
const NODES: u32 = 200;

/// The other block has these nodes, some of folds that the leaf has too.
static OTHERS: [Node; 3] = [
    Node {
        fold: 0,
        block: 9,
        place: 0,
    },
    Node {
        fold: 2,
        block: 9,
        place: 1,
    },
    Node {
        fold: 5,
        block: 9,
        place: 2,
    },
];

/// A partition without nodes, with room for so many.
pub(crate) fn part_of<R: AllocGlobal + Abort>(rt: &R, cells: u32, nodes: u32) -> Partition
    ensures { result ≡ empty_part nodes 16 }
{
    ensure(rt, cells > 0, "cells");
    Partition::new(rt.alloc(), cells, nodes, 16).expect(rt, "a partition")
}

/// Enters the node, if there is room.
pub(crate) fn enters(part: &mut Partition, node: Node) -> bool {
    let room = part.spare() > 0;
    if room {
        part.enter(node);
    }
    room
}

/// The node comes, for which there is room, or goes, and is there.
pub(crate) fn moves(part: &mut Partition, node: &Node, comes: bool) -> bool {
    if comes {
        enters(part, *node)
    } else {
        part.leave(node)
    }
}

/// The nodes of the other block come or go.
fn move_others<R: Abort>(rt: &R, part: &mut Partition, come: bool) {
    for node in OTHERS.iter() {
        ensure(rt, moves(part, node, come), "the other block's node");
    }
}

/// A partition with the nodes of the other block.
pub(crate) fn shared_part<R: AllocGlobal + Abort>(rt: &R) -> Partition {
    let mut part = part_of(rt, 16, NODES);
    move_others(rt, &mut part, true);
    part
}

/// The partition has the nodes of the other block, and no more: they leave, and then all its nodes are
/// spare.
pub(crate) fn assert_others<R: Abort>(rt: &R, part: &mut Partition) {
    move_others(rt, part, false);
    ensure(rt, part.spare() == NODES, "no more nodes");
}

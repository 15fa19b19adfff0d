//! A plain recount of the nodes that a leaf has entered.
use crate::claims::ensure;
use crate::shared::moves;
use chain_arena::Node;
use hash_partition::Partition;
use std::process::Abort;

/// Of each run of nodes with one fold the first, or the last, comes or goes, where that is at this place
/// or behind it.
pub(crate) fn move_runs<R: Abort>(
    rt: &R,
    part: &mut Partition,
    nodes: &[Node],
    left: bool,
    from: u16,
    come: bool,
) {
    for run in nodes.chunk_by(|a, b| a.fold == b.fold) {
        let end = if left { run.first() } else { run.last() };
        let node = end.expect(rt, "a node");
        let moved = node.place < from || moves(part, node, come);
        ensure(rt, moved, "a node of the recount");
    }
}

//! Leaves drawn by number, each changed once, against a plain recount.
ghost use Rattle.std.specs.Prelude.{◌≤◌, length};

use crate::changes::{row_change, seam};
use crate::claims::ensure;
use crate::drawn::{Cut, PLACE, draw_cut};
use crate::recount::move_runs;
use crate::shared::{assert_others, moves, shared_part};
use chain_arena::Node;
use hash_partition::Partition;
use std::process::Abort;

#[test]
fn two_thousand_leaves_keep_up(rt: HostRuntime) {
    for number in 0..2000 {
        keeps_up(&rt, number);
    }
}

// A row or a tail comes, or it goes, as the number says: the partition has the old nodes of the leaf and
// those of the other block, and then just the new ones and those.
fn keeps_up<R: AllocGlobal + Abort>(rt: &R, number: u64) {
    let cut = draw_cut(rt, number);
    let mut part = shared_part(rt);
    ensure(rt, cut.before <= cut.rows.len(), "a cut among the rows");
    let (is_row, comes) = (number % 4 < 2, number % 2 == 0);
    let with_row = with_row(rt, &cut);
    let (without, with) = if is_row {
        (cut.rows.as_slice(), with_row.as_slice())
    } else {
        (&cut.rows[..cut.before], cut.rows.as_slice())
    };
    let (old, new) = if comes {
        (without, with)
    } else {
        (with, without)
    };
    move_runs(rt, &mut part, old, cut.left, 0, true);
    if is_row {
        ensure(rt, change_row(&mut part, &cut, comes), "the row's nodes");
    } else {
        change_tail(rt, &mut part, &cut, comes);
    }
    move_runs(rt, &mut part, new, cut.left, 0, false);
    assert_others(rt, &mut part);
}

// The nodes of the leaf with the row.
fn with_row<R: AllocGlobal + Abort>(rt: &R, cut: &Cut) -> Vec<Node>
    requires { cut.now.before ≤ length cut.now.rows.items }
{
    let mut rows = cut.rows.to_vec(rt.alloc()).expect(rt, "memory for nodes");
    rows.insert(cut.before, cut.node)
        .expect(rt, "memory for a node");
    rows
}

// The node comes or goes, if there is one.
fn moves_if(part: &mut Partition, node: Option<Node>, comes: bool) -> bool {
    match node {
        Some(node) => moves(part, &node, comes),
        None => true,
    }
}

// A row comes, with what it brings in and drives out, or goes, and all is the other way round. What goes
// then goes first.
fn change_row(part: &mut Partition, cut: &Cut, comes: bool) -> bool
    requires { cut.now.before ≤ length cut.now.rows.items }
{
    let (before, after) = cut.rows.split_at(cut.before);
    let (own, parted, driven) = row_change(cut.left, before, cut.node, after);
    if comes {
        moves_if(part, driven, false) && moves_if(part, own, true) && moves_if(part, parted, true)
    } else {
        moves_if(part, own, false) && moves_if(part, parted, false) && moves_if(part, driven, true)
    }
}

// The tail comes, and the seam goes before, or it goes, and the seam comes then.
fn change_tail<R: Abort>(rt: &R, part: &mut Partition, cut: &Cut, comes: bool)
    requires { cut.now.before ≤ length cut.now.rows.items }
{
    let (before, after) = cut.rows.split_at(cut.before);
    let seam = seam(cut.left, before, after);
    ensure(rt, !comes || moves_if(part, seam, false), "the seam");
    move_runs(rt, part, &cut.rows, cut.left, PLACE, comes);
    ensure(rt, comes || moves_if(part, seam, true), "room for the seam");
}

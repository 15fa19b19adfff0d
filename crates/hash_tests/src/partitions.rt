//! The partition, of which no clause says that calls succeed.
ghost use Rattle.std.specs.Prelude.{◌<◌, length};

use crate::claims::ensure;
use crate::shared::{enters, part_of};
use crate::steps::{Script, Step, is_node, node};
use hash_partition::Partition;
use std::process::Abort;

static SCRIPTS: [Script; 2] = [
    // Room for two: both are found by their folds, and one that leaves makes room for another.
    (
        1,
        2,
        &[
            Step::Add(5, 1),
            Step::Add(6, 1),
            Step::Spare(0),
            Step::Find(6, Some(1)),
            Step::Take(5, 2, false),
            Step::Take(5, 1, true),
            Step::Spare(1),
            Step::Find(5, None),
            Step::Add(9, 3),
            Step::Find(9, Some(3)),
        ],
    ),
    // The nodes of one block go, one by its fold, and the other's stays.
    (
        2,
        4,
        &[
            Step::Add(1, 3),
            Step::Add(2, 3),
            Step::Add(1, 2),
            Step::TakeOf(1, 3, Some(3)),
            Step::TakeOf(1, 3, None),
            Step::Remove(3, 1),
            Step::Spare(3),
            Step::Find(2, None),
            Step::Find(1, Some(2)),
        ],
    ),
];

#[test]
fn partitions_do_what_the_scripts_say(rt: HostRuntime) {
    for (cells, nodes, steps) in SCRIPTS.iter() {
        assert_does(&rt, &mut part_of(&rt, *cells, *nodes), steps);
    }
}

#[test]
fn a_block_keeps_its_stamp(rt: HostRuntime) {
    ensure(&rt, keeps_stamp(&mut part_of(&rt, 1, 1)), "the stamp");
}

// The partition tells what it has to.
fn does(part: &mut Partition, step: &Step) -> bool {
    match *step {
        Step::Add(fold, block) => enters(part, node(fold, block)),
        Step::Take(fold, block, told) => part.leave(&node(fold, block)) == told,
        Step::TakeOf(fold, block, told) => is_node(part.leave_of(fold, block), fold, told),
        Step::Remove(block, told) => part.leave_block(block) == told,
        Step::Find(fold, told) => is_node(part.find(fold), fold, told),
        Step::Spare(told) => part.spare() == told,
        Step::Resize(..) | Step::Million(_) => false,
    }
}

fn assert_does<R: Abort>(rt: &R, part: &mut Partition, steps: &[Step]) {
    for step in steps {
        ensure(rt, does(part, step), "a partition that does this step");
    }
}

// The stamp of block 3 comes, stays as the block's nodes go, and goes.
fn keeps_stamp(part: &mut Partition) -> bool
    requires { 3 < length part.old.stamps }
{
    part.set_stamp(3, Some(8));
    let (comes, other) = (part.stamp(3), part.stamp(2));
    part.leave_block(3);
    let stays = part.stamp(3);
    part.set_stamp(3, None);
    let goes = part.stamp(3);
    [comes, other, stays, goes] == [Some(8), None, Some(8), None]
}

//! What is hashed of what lay in an engine, counted anew by the rows of its leaves alone.
ghost use Rattle.std.specs.Prelude.{IfSome, IsSome};
ghost use Rattle.index_page.specs.Rows.{find_row};

use crate::claims::ensure;
use chain_arena::Node;
use forest_law::{Frame, Object};
use hash_partition::Partition;
use index_page::{Page, Place};
use key_tuple::{Fields, Params, fold};
use map_history::Sizes;
use std::process::Abort;

/// How many leaves are hashed, and how many nodes all partitions have.
#[derive(Clone, Copy)]
pub(crate) struct Counted {
    pub(crate) leaves: u32,
    pub(crate) nodes: u32,
}

/// How the leaf in a block is hashed.
#[derive(Clone, Copy)]
struct Hashed {
    index: u32,
    params: Params,
    block: u32,
    bits: u8,
}

/// A node that has to be in the partition of an index.
#[derive(Clone, Copy)]
struct Due {
    index: u32,
    node: Node,
}

/// The place of the first row from the left, or from the right.
fn first(page: &Page, left: bool) -> Option<Place>
    ensures { IfSome result (λ place. IsSome (find_row place page.now.rows)) }
{
    if left { page.first() } else { page.last() }
}

/// The place of the row after that one, from there.
fn next(page: &Page, place: Place, left: bool) -> Option<Place>
    requires { IsSome (find_row place page.now.rows) }
    ensures { IfSome result (λ place. IsSome (find_row place page.now.rows)) }
{
    if left {
        page.next(place)
    } else {
        page.prev(place)
    }
}

/// The node of a row, which has the fields that its fold is made of.
fn node_at<R: Abort>(rt: &R, page: &Page, place: Place, how: &Hashed) -> Node
    requires { IsSome (find_row place page.now.rows) }
{
    let row = page.row(place);
    let has_all = how.params.asked_fields() <= u16::from(row.count());
    ensure(
        rt,
        has_all && how.bits > 0 && how.bits <= 64,
        "all fields of the fold",
    );
    Node {
        fold: fold(how.index, &row, &how.params, how.bits),
        block: how.block,
        place,
    }
}

/// Whether the last node that is due is one of the same block, with the same fold.
fn is_run_on(due: &[Due], node: &Node) -> bool {
    match due.last() {
        Some(last) => last.node.block == node.block && last.node.fold == node.fold,
        None => false,
    }
}

/// The first or the last node of each run of rows with one fold is due: the one that comes first where
/// they are looked at from the left, or from the right.
fn add_page<R: Abort>(rt: &R, due: &mut Vec<Due>, page: &Page, how: &Hashed) {
    let left = how.params.left;
    let mut at = first(page, left);
    for _ in 0..page.count() {
        let place = at.expect(rt, "a row");
        let node = node_at(rt, page, place, how);
        if !is_run_on(due, &node) {
            let index = how.index;
            due.push(Due { index, node })
                .expect(rt, "memory for a node");
        }
        at = next(page, place, left);
    }
}

/// The same of a block, whose leaf is hashed for an index where it is hashed somehow; and whether it
/// is.
fn add_frame<R: Abort>(rt: &R, due: &mut Vec<Due>, frame: &Frame, block: u32, bits: u8) -> bool {
    let Some(index) = frame.hashed else {
        ensure(
            rt,
            frame.figures.built.is_none(),
            "a block that isn't hashed",
        );
        return false;
    };
    let params = frame.figures.built.expect(rt, "how it is hashed");
    let page = frame.page.as_ref().expect(rt, "the page that is hashed");
    ensure(
        rt,
        page.head().level == 0 && page.head().index == index,
        "a leaf of the index",
    );
    let how = Hashed {
        index,
        params,
        block,
        bits,
    };
    add_page(rt, due, page, &how);
    true
}

/// The same of all blocks, and how many leaves are hashed.
fn add_all<R: Abort>(rt: &R, due: &mut Vec<Due>, objects: &[Object], bits: u8) -> u32 {
    let (mut block, mut leaves): (u32, u32) = (0, 0);
    for object in objects {
        if let Object::Frame(frame) = object {
            if add_frame(rt, due, frame, block, bits) {
                leaves = leaves.wrapping_add(1);
            }
            block = block.wrapping_add(1);
        }
    }
    leaves
}

/// Takes out of the partition with this number all that is due there, each of which is there; and
/// then it has as much room as it may have. Tells how many nodes it had.
fn take_due<R: Abort>(
    rt: &R,
    part: &mut Partition,
    number: u32,
    due: &[Due],
    sizes: &Sizes,
) -> u32 {
    let nodes = sizes.nodes.wrapping_sub(part.spare());
    let mut are_there = true;
    for one in due {
        let place = one.index.checked_rem(sizes.parts).expect(rt, "a partition");
        if place == number && !part.leave(&one.node) {
            are_there = false;
        }
    }
    ensure(
        rt,
        are_there && part.spare() == sizes.nodes,
        "the nodes that are due, and no other",
    );
    nodes
}

/// The same of all partitions.
fn take_all<R: Abort>(rt: &R, objects: &mut [Object], due: &[Due], sizes: &Sizes) -> u32 {
    let (mut number, mut nodes): (u32, u32) = (0, 0);
    for object in objects {
        if let Object::Part(part) = object {
            nodes = nodes.wrapping_add(take_due(rt, part, number, due, sizes));
            number = number.wrapping_add(1);
        }
    }
    nodes
}

/// Counts what is hashed of what lay in an engine of these sizes. Of each run of rows with one fold
/// on a hashed leaf the first or the last has to have its node once in the partition of its index,
/// and no partition may have any other.
pub(crate) fn recount<R: AllocGlobal + Abort>(
    rt: &R,
    mut objects: Vec<Object>,
    sizes: &Sizes,
) -> Counted {
    let mut due = Vec::new(rt.alloc());
    let bits = u8::try_from(sizes.fold_bits).unwrap_or(0);
    let leaves = add_all(rt, &mut due, &objects, bits);
    let nodes = take_all(rt, &mut objects, &due, sizes);
    Counted { leaves, nodes }
}

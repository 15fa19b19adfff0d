//! Leaves drawn by number, as the nodes that their rows have.
use chain_arena::Node;
use std::process::Abort;

/// The block of the leaves.
const BLOCK: u32 = 7;

/// The place of the row that comes or goes. Those before it have lower ones, those after it higher
/// ones.
pub(crate) const PLACE: u16 = 99;

/// A leaf of up to 60 rows, cut in two, and a row that is none of them.
#[derive(Drop)]
pub(crate) struct Cut {
    pub(crate) left: bool,
    /// The nodes of the rows.
    pub(crate) rows: Vec<Node>,
    /// How many of them stand before the cut.
    pub(crate) before: usize,
    pub(crate) node: Node,
}

/// A row of a chain of numbers, the next of which is drawn.
fn draw(state: &mut u64) -> u64 {
    *state = state
        .wrapping_mul(6_364_136_223_846_793_005)
        .wrapping_add(1_442_695_040_888_963_407);
    *state >> 33
}

/// A node of one of three folds at a place.
fn draw_node(state: &mut u64, place: u16) -> Node {
    Node {
        fold: draw(state) % 3,
        block: BLOCK,
        place,
    }
}

/// Puts the nodes of up to 30 rows behind the others, at places from the first one on.
fn draw_half<R: Abort>(rt: &R, rows: &mut Vec<Node>, state: &mut u64, first: u16) {
    let count = (draw(state) % 31) as u16;
    for place in first..first.saturating_add(count) {
        rows.push(draw_node(state, place))
            .expect(rt, "memory for a node");
    }
}

/// The leaf of this number.
pub(crate) fn draw_cut<R: AllocGlobal + Abort>(rt: &R, number: u64) -> Cut {
    let mut state = number;
    let mut rows = Vec::new(rt.alloc());
    let left = draw(&mut state) % 2 == 0;
    draw_half(rt, &mut rows, &mut state, 0);
    let before = rows.len();
    let node = draw_node(&mut state, PLACE);
    draw_half(rt, &mut rows, &mut state, PLACE + 1);
    Cut {
        left,
        rows,
        before,
        node,
    }
}

//! Two passes of a space of one empty tree: what one of them is told while the other holds something,
//! and while it holds nothing.
use crate::claims::ensure;
use crate::guesses::{cause_meanwhile, two_causes};
use crate::held_tree::found_meanwhile;
use forest_world::open_forest;
use hash_guess::Cause;
use map_history::Sizes;
use sample_rows::key_of;
use std::process::Abort;
use std::sync::Wait;

/// The sizes of one index with two pages.
const SIZES: Sizes = Sizes {
    blocks: 8,
    pages: 2,
    parts: 1,
    cells: 1,
    nodes: 0,
    fold_bits: 64,
    max_changes: 1,
};

/// A miss is learnt, so that the next guess finds the index cold.
fn is_learnt(causes: &(Cause, Cause)) -> bool {
    matches!(causes, (Cause::NoEntry { .. }, Cause::Cold))
}

/// A tuple that is too short for the prefix is no miss.
fn is_short(causes: &(Cause, Cause)) -> bool {
    let short = Cause::Short { have: 1, need: 2 };
    causes.0 == short && causes.1 == short
}

/// What one pass is told while the other holds the tree, then nothing, and then the partition.
fn work_beside<R: AllocGlobal + Abort + Wait>(rt: &R) {
    let key = key_of(rt.alloc(), b"oak").expect(rt, "a key");
    let (space, mut pass) = open_forest(rt.alloc(), &SIZES, &[2], 2, 0).expect(rt, "a space");
    let mut other = space
        .split(rt.alloc(), &mut pass)
        .expect(rt, "another pass");
    let block = found_meanwhile(&space, &mut pass, &mut other, &key, rt);
    let learnt = is_learnt(&two_causes(rt, &space, &mut pass, &key, 1));
    let short = is_short(&two_causes(rt, &space, &mut pass, &key, 2));
    let meanwhile = cause_meanwhile(rt, &space, &mut pass, &mut other, &key);
    let busy = meanwhile == Cause::PartBusy { holder: 1 };
    let is_told = block == 0 && learnt && short && busy;
    ensure(rt, is_told, "what a pass is told");
}

#[test]
fn a_pass_goes_past_a_held_tree_and_its_guesses_say_why_they_miss(rt: HostRuntime) {
    work_beside(&rt);
}

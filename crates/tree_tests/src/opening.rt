//! A space of trees opens and closes, with memory at hand, and its frames begin with the clock that
//! is given.
use crate::claims::ensure;
use forest_world::{Object, open_forest};
use map_history::Sizes;
use std::process::Abort;

/// Two partitions, eight blocks, and pages for two indexes.
const SIZES: Sizes = Sizes {
    blocks: 8,
    pages: 70,
    parts: 2,
    cells: 16,
    nodes: 5,
    fold_bits: 64,
    max_changes: 9,
};

/// Whether each frame among the objects has this clock.
fn have_clock(objects: &[Object], clock: u64) -> bool {
    for object in objects.iter() {
        match object {
            Object::Frame(frame) if frame.clock != clock => return false,
            _ => {}
        }
    }
    true
}

/// Whether a space of two indexes that opens at this clock has thirteen objects at its close, and
/// its frames that clock.
fn opens_at<R: AllocGlobal + Abort>(rt: &R, clock: u64) -> bool {
    let (space, pass) = open_forest(rt.alloc(), &SIZES, &[3, 1], 1, clock).expect(rt, "a space");
    let objects = space
        .close(rt.alloc(), pass)
        .expect(rt, "memory for the objects");
    objects.len() == 13 && have_clock(objects.as_slice(), clock)
}

#[test]
fn a_space_has_all_its_objects_and_its_frames_the_clock_that_is_given(rt: HostRuntime) {
    let are_so = opens_at(&rt, 0) && opens_at(&rt, 7) && opens_at(&rt, u64::MAX);
    ensure(&rt, are_so, "thirteen objects, and frames at the clock");
}

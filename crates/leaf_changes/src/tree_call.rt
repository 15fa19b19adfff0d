//! What a call is about: a key of an index, and how its leaf was found.
ghost use Rattle.std.specs.Prelude.{◌≡◌, ◌<◌, ◌≤◌, length};
ghost use Rattle.forest_law.specs.State.{fields_for};
ghost use Rattle.buffer_pool.specs.Forests.{IsForest};

use engine_law::Found;
use forest_world::ForestSpace;
use key_tuple::Key;
use std::alloc::Global;

/// A call about a key of an index, whose leaf was found so. Its methods get the pass each time, and
/// most of them the leaf in its hand.
#[derive(Drop)]
pub struct TreeCall<'a, R> {
    pub space: &'a ForestSpace,
    pub alloc: Global,
    pub index: u32,
    pub key: &'a Key,
    pub found: Found,
    pub wait: &'a R,
    pub ghost forest: { IsForest space.now },
    pub ghost few: { space.now.terms.shape.pages ≤ 65536 },
    pub ghost there: { index < space.now.terms.shape.indexes },
    pub ghost fits: { length key.now.tuple ≡ fields_for space.now.terms.shape index },
}

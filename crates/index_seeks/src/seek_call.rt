//! What a seek is about, and how it stands.
ghost use Rattle.std.specs.Prelude.{◌<◌, ◌≤◌, length};
ghost use Rattle.forest_law.specs.State.{fields_for};
ghost use Rattle.buffer_pool.specs.Forests.{IsForest};

use engine_law::Found;
use forest_world::ForestSpace;
use key_tuple::{Mode, Tuple};
use map_history::Told;

/// A call about the row of an index that the mode asks for, once its first leaf was found so. Its
/// methods get the pass each time.
#[derive(Drop)]
pub(crate) struct SeekCall<'a, R> {
    pub(crate) space: &'a ForestSpace,
    pub(crate) index: u32,
    pub(crate) mode: Mode,
    pub(crate) tuple: &'a Tuple,
    pub(crate) found: Found,
    pub(crate) wait: &'a R,
    ghost forest: { IsForest space.now },
    ghost there: { index < space.now.terms.shape.indexes },
    ghost fits: { length tuple.now.fields ≤ fields_for space.now.terms.shape index },
}

/// A leaf in hand that has no row for the mode, when the list had so many changes.
#[derive(Clone, Copy)]
pub(crate) struct Walk {
    pub(crate) block: u32,
    pub(crate) point: u64,
}

/// How a seek stands once it has looked at a leaf.
#[derive(Clone, Copy)]
pub(crate) enum Stand {
    /// It goes on from that leaf.
    On(Walk),
    /// It ends: it was answered, or is to begin again.
    Ends(Option<Told>),
}

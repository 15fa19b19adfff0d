//! What a scan is about.
ghost use Rattle.std.specs.Prelude.{◌≡◌, ◌<◌, ◌≤◌, length};
ghost use Rattle.forest_law.specs.State.{fields_for};
ghost use Rattle.buffer_pool.specs.Forests.{IsForest};
ghost use Rattle.tree_cursor.specs.Pieces.{fields_lent, count_lent};

use forest_world::ForestSpace;
use index_page::Place;
use key_tuple::Tuple;
use map_history::{How, Note};
use tree_cursor::PieceCall;

/// A scan of an index. Its methods get the pass each time.
#[derive(Drop)]
pub(crate) struct ScanCall<'a, R> {
    pub(crate) space: &'a ForestSpace,
    pub(crate) index: u32,
    pub(crate) from: &'a Tuple,
    pub(crate) to: Option<&'a Tuple>,
    pub(crate) limit: u32,
    pub(crate) wait: &'a R,
    ghost forest: { IsForest space.now },
    ghost there: { index < space.now.terms.shape.indexes },
    ghost from_fits: { length from.now.fields ≤ fields_for space.now.terms.shape index },
    ghost to_fits: { count_lent to ≤ fields_for space.now.terms.shape index },
}

/// The leaf in hand of a scan's first piece, and how it was found.
#[derive(Clone, Copy)]
pub struct FirstLeaf {
    /// The block whose frame has the leaf.
    pub block: u32,
    /// The place of its first row that isn't below FROM, if it has one.
    pub place: Option<Place>,
    /// How it was found.
    pub how: How,
    /// What was learnt from that.
    pub note: Note,
}

impl<R> ScanCall<'_, R> {
    /// A call about the next piece, whose leaf was found so.
    pub(crate) fn piece_call(&self, how: How, note: Note) -> PieceCall<'_, R>
        ensures space { result.space.now ≡ self.now.space.now }
        ensures about { (result.index ≡ self.now.index)
            × (result.from.now.fields ≡ self.now.from.now.fields)
            × (fields_lent result.to ≡ fields_lent self.now.to) × (result.limit ≡ self.now.limit) }
        ensures found { (result.how ≡ how) × (result.note ≡ note) }
    {
        PieceCall {
            space: self.space,
            index: self.index,
            from: self.from,
            to: self.to,
            limit: self.limit,
            how,
            note,
            wait: self.wait,
        }
    }
}

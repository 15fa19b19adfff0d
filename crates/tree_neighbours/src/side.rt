//! The side of a leaf on which a search goes on, and what stands there.
ghost use Rattle.std.specs.Prelude.{◌≡◌};
ghost use Rattle.tree_neighbours.specs.Sides as sides;

use index_page::{Page, Place, Spot};
use key_tuple::Mode;

/// A side of a leaf: where the greater keys are, or the lesser ones.
#[derive(Clone, Copy)]
pub enum Side {
    /// Where the lesser keys are.
    Left,
    /// Where the greater keys are.
    Right,
}

/// The side on which a search with this mode goes on where a leaf has no row for it.
pub fn side_of(mode: Mode) -> Side
    ensures { result ≡ sides.side_of mode }
{
    match mode {
        Mode::Ge | Mode::G => Side::Right,
        Mode::Le | Mode::L => Side::Left,
    }
}

/// The place of the row that the spot has on this side.
pub(crate) fn row_on(side: Side, spot: Spot) -> Option<Place>
    ensures { result ≡ sides.row_on side spot }
{
    match side {
        Side::Left => spot.before,
        Side::Right => spot.after,
    }
}

/// The number of the page that a page leads to on this side.
pub(crate) fn page_on(side: Side, page: &Page) -> Option<u32>
    ensures { result ≡ sides.page_on side page.now }
{
    let head = page.head();
    match side {
        Side::Left => head.prev,
        Side::Right => head.next,
    }
}

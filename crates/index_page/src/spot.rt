//! What a search tells.
use key_tuple::Match;

/// Where a row stands on its page. A row keeps its place until it is deleted.
pub type Place = u16;

/// The rows around a cut: their places, and how far the tuple agrees with each of them, (0, 0)
/// where there is none.
#[derive(Clone, Copy)]
pub struct Spot {
    /// The last row that the cut leaves out.
    pub before: Option<Place>,
    /// The first row that the cut admits.
    pub after: Option<Place>,
    /// How far the tuple agrees with the row before.
    pub low: Match,
    /// How far the tuple agrees with the row after.
    pub up: Match,
    /// How many rows the cut leaves out.
    pub(crate) cut: usize,
}

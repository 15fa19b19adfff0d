//! Searches in a page.
ghost use Rattle.std.specs.Prelude.{◌≡◌, ◌≤◌, ℕ, length, Some, None, nat_eq, if◌then◌else◌};
ghost use Rattle.index_page.specs.Search.{Finds};
ghost use Rattle.byte_page.specs.Searching.{spot_with};

use crate::page::BytePage;
use crate::walks::{INFIMUM, row_place};
use index_page::Place;
use key_tuple::{Fields, Match, Mode};
use page_mirror::next_of;
use page_search::find_cut;

/// The rows around a cut: their places, and how far the tuple agrees with each of them, (0, 0)
/// where there is none.
#[derive(Clone, Copy)]
pub struct ByteSpot {
    /// The last row that the cut leaves out.
    pub before: Option<Place>,
    /// The first row that the cut admits.
    pub after: Option<Place>,
    /// How far the tuple agrees with the row before.
    pub low: Match,
    /// How far the tuple agrees with the row after.
    pub up: Match,
}

impl BytePage {
    /// The rows around the cut of a mode: `Ge` and `L` cut before the first row that isn't below
    /// the tuple, `G` and `Le` before the first row that is above it. It takes no memory.
    pub fn search<A: Fields>(&self, tuple: &A, mode: Mode) -> ByteSpot
        requires { length (A.fields_of tuple.now) ≤ self.now.page.head.fields }
        ensures { (cut : ℕ) × Finds mode (A.fields_of tuple.now) self.now.page.rows
            (spot_with result cut) }
    {
        let cut = find_cut(&self.bytes, self.fields, tuple, mode);
        ByteSpot {
            before: place_left(cut.before),
            after: row_place(next_of(&self.bytes, cut.before)),
            low: cut.low,
            up: cut.up,
        }
    }
}

/// The place itself, if it isn't that of infimum.
pub(crate) fn place_left(place: u16) -> Option<u16>
    ensures { result ≡ if nat_eq place 99 then None else Some place }
{
    if place == INFIMUM { None } else { Some(place) }
}

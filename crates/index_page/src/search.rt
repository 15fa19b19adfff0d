//! Searches in a page, and the rows beside a row.
ghost use Rattle.std.specs.Prelude.{◌≡◌, ◌≤◌, ◌<◌, length, take, drop, IfSome, IsSome};
ghost use Rattle.key_tuple.specs.KeyPlace.{cut_of};
ghost use Rattle.index_page.specs.Rows.{IsAt};
ghost use Rattle.index_page.specs.Search.{AllOut, AllIn, agreement, Finds, nth_row};

use crate::heads::next_look;
use crate::page::Page;
use crate::spot::{Place, Spot};
use key_tuple::{Fields, Match, Mode, is_past, matches};

impl Page {
    /// The rows around the cut of a mode: `Ge` and `L` cut before the first row that isn't below
    /// the tuple, `G` and `Le` before the first row that is above it. It takes no memory.
    pub fn search<A: Fields>(&self, tuple: &A, mode: Mode) -> Spot
        requires { length (A.fields_of tuple.now) ≤ self.now.head.fields }
        ensures { Finds mode (A.fields_of tuple.now) self.now.rows result }
    {
        let cut = self.cut(tuple, mode);
        let (before, low) = self.agreement(tuple, cut.checked_sub(1));
        let after_cut = if cut < self.rows.len() {
            Some(cut)
        } else {
            None
        };
        let (after, up) = self.agreement(tuple, after_cut);
        Spot {
            before,
            after,
            low,
            up,
            cut,
        }
    }

    /// How many rows the mode's cut leaves out.
    pub(crate) fn cut<A: Fields>(&self, tuple: &A, mode: Mode) -> usize
        requires { length (A.fields_of tuple.now) ≤ self.now.head.fields }
        ensures within { result ≤ length self.now.rows }
        ensures out { AllOut (cut_of mode (A.fields_of tuple.now)) (take result self.now.rows) }
        ensures past { AllIn (cut_of mode (A.fields_of tuple.now)) (drop result self.now.rows) }
    {
        let mut low = 0;
        let mut high = self.rows.len();
        let likely = self.rows.likely(tuple);
        while low < high {
            let middle = next_look(low, high, likely);
            if is_past(mode, tuple, &self.rows.stored(middle).1) {
                high = middle;
            } else {
                low = middle + 1;
            }
        }
        low
    }

    /// The place of a row by its number, and how far the tuple agrees with it.
    fn agreement<A: Fields>(&self, tuple: &A, number: Option<usize>) -> (Option<Place>, Match)
        requires fields { length (A.fields_of tuple.now) ≤ self.now.head.fields }
        requires within { IfSome number (λ i. i < length self.now.rows) }
        ensures place { IsAt self.now.rows result.0 (nth_row self.now.rows number) }
        ensures figures { result.1
            ≡ agreement (A.fields_of tuple.now) (nth_row self.now.rows number) }
    {
        match number {
            Some(i) => {
                let (place, record) = self.rows.stored(i);
                (Some(place), matches(tuple, &record))
            }
            None => (
                None,
                Match {
                    fields: 0,
                    bytes: 0,
                },
            ),
        }
    }
}

//! Where a cut is.
ghost use Rattle.std.specs.Prelude.{◌≡◌, ◌<◌};
ghost use Rattle.page_search.specs.Agreeing.{agreed};
ghost use Rattle.page_search.specs.Cuts.{place_in};

use crate::agreement::Agreement;
use key_tuple::Match;

/// Where a cut parts the rows of a page.
#[derive(Clone, Copy)]
pub struct CutPlace {
    /// The place of the last row that it leaves out, or that of infimum.
    pub before: u16,
    /// How far the tuple agrees with that row, (0, 0) where there is none.
    pub low: Match,
    /// How far the tuple agrees with the first row that the cut admits, (0, 0) where there is none.
    pub up: Match,
}

/// The same while it is looked for.
#[derive(Clone, Copy)]
pub(crate) struct Narrowed {
    /// The place of the last row that is known to be left out, or that of infimum.
    pub(crate) before: u16,
    /// How far the tuple agrees with that row.
    pub(crate) low: Agreement,
    /// How far the tuple agrees with the first row that is known to be admitted.
    pub(crate) up: Agreement,
}

impl Narrowed {
    /// The cut that was found.
    pub(crate) fn place(self) -> CutPlace
        requires low { (agreed self.low).fields < 256 }
        requires up { (agreed self.up).fields < 256 }
        ensures { result ≡ place_in self }
    {
        CutPlace {
            before: self.before,
            low: self.low.figures(),
            up: self.up.figures(),
        }
    }
}

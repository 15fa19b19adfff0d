//! Why a guess leads nowhere.
ghost use Rattle.std.specs.Prelude.{◌≡◌};
ghost use Rattle.hash_guess.specs.Causes.{is_miss};

use index_page::Place;

/// Why a guess leads nowhere.
#[derive(Clone, Copy, PartialEq, Eq)]
pub enum Cause {
    /// What the index has learnt promises nothing.
    Cold,
    /// The tuple has fewer fields than the index's prefix needs.
    Short {
        /// How many the tuple has.
        have: u8,
        /// How many are needed.
        need: u16,
    },
    /// Another pass held the partition of the index.
    PartBusy {
        /// That pass.
        holder: u32,
    },
    /// The partition has no node of the fold.
    NoEntry {
        /// The fold of the tuple's prefix.
        fold: u64,
    },
    /// Another pass held the frame of the node's block.
    BlockBusy {
        /// That pass.
        holder: u32,
    },
    /// The row that the node names isn't the one that the mode asks for, as far as its page shows.
    Unequal {
        /// The node's block.
        block: u32,
        /// The row's place on its page.
        place: Place,
    },
}

impl Cause {
    /// Whether the hash was asked, so that the index learns of a miss: after each cause but `Cold` and
    /// `Short`.
    pub fn is_miss(&self) -> bool
        ensures { result ≡ is_miss self.now }
    {
        !matches!(self, Cause::Cold | Cause::Short { .. })
    }
}

//! What an index learns from.
ghost use Rattle.std.specs.Prelude.{◌≡◌};
ghost use Rattle.learning.specs.Opening.{opening_block};

use key_tuple::{Match, Params};

/// How far the tuple of a search agrees with the rows on both sides of its position.
#[derive(Clone, Copy)]
pub struct Figures {
    /// With the row before the position.
    pub low: Match,
    /// With the row after the position.
    pub up: Match,
}

/// What is known of the leaf that a search came to.
#[derive(Clone, Copy, PartialEq, Eq)]
pub struct BlockFigures {
    /// How many searches in a row would have been helped by hashing the block as advised.
    pub helps: u32,
    /// How the block should be hashed.
    pub advice: Params,
    /// How the block is hashed, if it is.
    pub built: Option<Params>,
}

impl BlockFigures {
    /// What a block begins with whenever its frame gets a page.
    pub fn opening() -> BlockFigures
        ensures { result ≡ opening_block }
    {
        BlockFigures {
            helps: 0,
            advice: Params {
                fields: 1,
                bytes: 0,
                left: true,
            },
            built: None,
        }
    }
}

/// A search that went down the tree.
#[derive(Clone, Copy)]
pub struct Descent {
    /// How many fields the index has.
    pub unique: u8,
    /// How far the tuple agrees with the rows beside its position.
    pub figures: Figures,
    /// The figures of the leaf's block before this search.
    pub block: BlockFigures,
    /// How many rows the leaf has.
    pub rows: u16,
}

/// What an index learns from.
#[derive(Clone, Copy)]
pub enum Event {
    /// The hash answered a search.
    Hit,
    /// The hash was asked and could not answer.
    Miss,
    /// A search went down the tree.
    Descent(Descent),
}

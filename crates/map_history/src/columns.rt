//! The two last columns of an answer: how it was found, and what was learnt from it.
ghost use Rattle.std.specs.Prelude.{◌≡◌};
ghost use Rattle.map_history.specs.Words.{how_text, note_text};

/// How a search found its row.
#[derive(Clone, Copy, PartialEq, Eq)]
pub enum How {
    /// Nothing is told of a search: printed `-`, which stands in no report.
    Dash,
    /// By the hash.
    Hit,
    /// By a descent, the hash being switched off.
    Off,
    /// By a descent, since nothing useful was learnt yet.
    Cold,
    /// By a descent, the tuple being shorter than the learnt prefix.
    Short,
    /// By a descent, the partition's latch being held.
    PartBusy,
    /// By a descent, the partition having no such fold.
    NoEntry,
    /// By a descent, the block's latch being held.
    BlockBusy,
    /// By a descent, the block's clock having moved on.
    Clock,
    /// By a descent, the hashed row not being the one asked for.
    Unequal,
    /// A later piece of a scan, by the cursor's place.
    ByClock,
    /// A later piece, by a search: the block's latch was held.
    ByBusy,
    /// A later piece, by a search: the block's clock had moved on.
    ByMoved,
    /// A later piece, by a search: the cursor's clock was at its last value.
    ByLast,
}

/// What became of a search's learning.
#[derive(Clone, Copy, PartialEq, Eq)]
pub enum Note {
    /// Nothing was to be said: printed `-`.
    Dash,
    /// No build was due.
    No,
    /// The block was hashed.
    Built,
    /// The block was hashed so already.
    Same,
    /// The partition lacked room.
    Arena,
    /// Another lane's event came first, and this one wasn't counted.
    Raced,
    /// The count of events is at its end, and this one wasn't counted.
    Worn,
}

impl How {
    /// The word as it is printed.
    pub fn text(self) -> &'static str
        ensures { result.now ≡ how_text self }
    {
        match self {
            How::Dash => "-",
            How::Hit => "hit",
            How::Off => "off",
            How::Cold => "cold",
            How::Short => "short",
            How::PartBusy => "part-busy",
            How::NoEntry => "no-entry",
            How::BlockBusy => "block-busy",
            How::Clock => "clock",
            How::Unequal => "unequal",
            How::ByClock => "by-clock",
            How::ByBusy => "by-busy",
            How::ByMoved => "by-moved",
            How::ByLast => "by-last",
        }
    }
}

impl Note {
    /// The word as it is printed.
    pub fn text(self) -> &'static str
        ensures { result.now ≡ note_text self }
    {
        match self {
            Note::Dash => "-",
            Note::No => "no",
            Note::Built => "built",
            Note::Same => "same",
            Note::Arena => "arena",
            Note::Raced => "raced",
            Note::Worn => "worn",
        }
    }
}

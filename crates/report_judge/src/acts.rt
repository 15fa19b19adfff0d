//! What may be asked, and by which words.
/// Which row a seek asks for, by its tuple.
#[derive(Clone, Copy, PartialEq)]
pub enum Reach {
    /// The first that isn't below it.
    From,
    /// The first that is above it.
    Past,
    /// The last that isn't above it.
    UpTo,
    /// The last that is below it.
    Before,
}

/// What is asked of a key, or of the tuple of a seek.
#[derive(Clone, Copy, PartialEq)]
pub enum Act {
    Get,
    Put,
    Set,
    Del,
    Seek(Reach),
}

impl Act {
    /// Whether this is a change that may be made where its key is there, or isn't.
    pub(crate) fn is_allowed(self, is_there: bool) -> bool {
        match self {
            Act::Put => !is_there,
            Act::Set | Act::Del => is_there,
            Act::Get | Act::Seek(_) => false,
        }
    }

    /// Whether this writes a row where it is done.
    pub(crate) fn writes_row(self) -> bool {
        matches!(self, Act::Put | Act::Set)
    }

    /// How many words tell a change that does this, if it is one.
    pub(crate) fn count_words(self) -> usize {
        match self {
            Act::Put | Act::Set => 6,
            Act::Del => 5,
            Act::Get | Act::Seek(_) => 0,
        }
    }
}

/// Verbs, the mode behind the index where one seeks, and what they ask.
static ACTS: [(&str, &str, Act); 8] = [
    ("get", "", Act::Get),
    ("put", "", Act::Put),
    ("set", "", Act::Set),
    ("del", "", Act::Del),
    ("seek", "ge", Act::Seek(Reach::From)),
    ("seek", "g", Act::Seek(Reach::Past)),
    ("seek", "le", Act::Seek(Reach::UpTo)),
    ("seek", "l", Act::Seek(Reach::Before)),
];

/// What a verb asks that has this word behind its index.
pub(crate) fn act_of<'a>(verb: &'a str, behind: &'a str) -> Option<Act> {
    for (word, mode, act) in ACTS.iter() {
        if verb == *word && (mode.is_empty() || behind == *mode) {
            return Some(*act);
        }
    }
    None
}

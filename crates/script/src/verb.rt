//! The words that a lane's line begins with.
ghost use Rattle.std.specs.Prelude.{◌≡◌};
ghost use Rattle.script.specs.Lane.{verb_named, verb_word};

/// What a line of a lane asks for.
#[derive(Clone, Copy)]
pub enum Verb {
    /// The value of a key.
    Get,
    /// A new row.
    Put,
    /// A new value of a row that is there.
    Set,
    /// A row to be taken out.
    Del,
    /// The row that a mode asks for.
    Seek,
}

/// All verbs.
const VERBS: [Verb; 5] = [Verb::Get, Verb::Put, Verb::Set, Verb::Del, Verb::Seek];

impl Verb {
    /// The word that a line begins with.
    fn word(self) -> &'static str
        ensures { result.now ≡ verb_word self }
    {
        match self {
            Verb::Get => "get",
            Verb::Put => "put",
            Verb::Set => "set",
            Verb::Del => "del",
            Verb::Seek => "seek",
        }
    }
}

/// The verb of a word.
pub fn find_verb(word: &[u8]) -> Option<Verb>
    ensures { result ≡ verb_named word.now }
{
    VERBS
        .iter()
        .copied()
        .find(|verb| verb.word().as_bytes() == word)
}

//! The words of a seek's modes.
ghost use Rattle.std.specs.Prelude.{◌≡◌};
ghost use Rattle.script.specs.Lane.{mode_named, mode_word};

use key_tuple::Mode;

/// All modes.
const MODES: [Mode; 4] = [Mode::Ge, Mode::G, Mode::Le, Mode::L];

/// The word that a seek names a mode by.
fn mode_word(mode: Mode) -> &'static str
    ensures { result.now ≡ mode_word mode }
{
    match mode {
        Mode::Ge => "ge",
        Mode::G => "g",
        Mode::Le => "le",
        Mode::L => "l",
    }
}

/// The mode of a word.
pub fn find_mode(word: &[u8]) -> Option<Mode>
    ensures { result ≡ mode_named word.now }
{
    MODES
        .iter()
        .copied()
        .find(|mode| mode_word(*mode).as_bytes() == word)
}

//! The words of a line.
ghost use Rattle.std.specs.Prelude.{◌≡◌, option_copied, option_map};
ghost use Rattle.std.specs.List.{list_all};
ghost use Rattle.script.specs.Grammar.{says_nothing, only, both, is_name, is_name_byte};
ghost use Rattle.script.specs.Pieces.{pieces_left};

use crate::MAX_NAME_BYTES;
use crate::error::{Flaw, Refusal};
use crate::field::field;
use crate::pieces::Pieces;
use key_tuple::{Key, KeyError, MAX_FIELDS, Value};
use std::alloc::Global;

/// An empty line and a line that begins with `#` say nothing.
pub fn is_silent(line: &[u8]) -> bool
    ensures { result ≡ says_nothing line.now }
{
    match line {
        [] => true,
        [byte, ..] => *byte == b'#',
    }
}

/// The word has the form of an index's name.
pub fn has_name_form(word: &[u8]) -> bool
    ensures { result ≡ is_name word.now }
{
    match word {
        [] => false,
        [first, rest @ ..] => {
            first.is_ascii_lowercase() && rest.len() < MAX_NAME_BYTES && all_continue_name(rest)
        }
    }
}

fn all_continue_name(bytes: &[u8]) -> bool
    ensures { result ≡ list_all is_name_byte bytes.now }
{
    bytes.iter().all(|byte| continues_name(*byte))
}

fn continues_name(byte: u8) -> bool
    ensures { result ≡ is_name_byte byte }
{
    byte.is_ascii_lowercase() || byte.is_ascii_digit() || byte == b'_'
}

/// The word, if there is just one.
pub fn one_word<'a>(mut words: Pieces<'a>) -> Option<&'a [u8]>
    ensures { option_copied result ≡ only (pieces_left words.entry) }
{
    let word = words.next()?;
    match words.next() {
        None => Some(word),
        Some(_) => None,
    }
}

/// The words, if there are just two.
pub fn two_words<'a>(mut words: Pieces<'a>) -> Option<(&'a [u8], &'a [u8])>
    ensures { option_map (λ p. (p.0.now, p.1.now)) result ≡ both (pieces_left words.entry) }
{
    let first = words.next()?;
    let second = words.next()?;
    match words.next() {
        None => Some((first, second)),
        Some(_) => None,
    }
}

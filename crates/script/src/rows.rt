//! Keys, values and tuples of a line.
ghost use Rattle.std.specs.Prelude.{◌≡◌, ◌<◌, ◌≤◌, length, IfOk};
ghost use Rattle.key_tuple.specs.Parts.{RiseTo};
ghost use Rattle.script.specs.Grammar.{key_spelled, tuple_spelled, short_key, short_value};
ghost use Rattle.script.specs.Lane.{key_parts, row_parts, search_parts};
ghost use Rattle.script.specs.Pieces.{pieces_left};
ghost use Rattle.script.specs.Steps.{Gives, or_bad};
ghost use Rattle.script.specs.Views.{text_fields};

use crate::error::{Flaw, Refusal};
use crate::field::{add_field, field};
use crate::modes::find_mode;
use crate::pieces::Pieces;
use crate::words::{one_word, two_words};
use arrayvec::ArrayVec;
use key_tuple::{Key, KeyError, MAX_FIELDS, Mode, Tuple, Value};
use std::alloc::Global;

/// The fields of a key's or a tuple's word: their bytes one behind another, and where each ends.
#[derive(Drop)]
pub struct KeyText {
    bytes: Vec<u8>,
    ends: ArrayVec<usize, 4>,
}

/// `KEY`, for an index whose keys have so many fields.
pub fn read_key(alloc: Global, count: u8, words: Pieces<'_>) -> Result<Key, Refusal>
    requires some { 0 < count }
    requires few { count ≤ MAX_FIELDS }
    ensures { Gives (λ k. k.tuple) result (key_parts count (pieces_left words.entry)) }
{
    let Some(word) = one_word(words) else {
        return Err(Refusal::Flawed(Flaw::BadLine));
    };
    let text = key_text(alloc, count, word)?;
    key_within(text)
}

/// `KEY VALUE`. The form of both is judged before their lengths.
pub fn read_row(alloc: Global, count: u8, words: Pieces<'_>) -> Result<(Key, Value), Refusal>
    requires some { 0 < count }
    requires few { count ≤ MAX_FIELDS }
    ensures { Gives (λ r. (r.0.tuple, r.1)) result (row_parts count (pieces_left words.entry)) }
{
    let Some((key, value)) = two_words(words) else {
        return Err(Refusal::Flawed(Flaw::BadLine));
    };
    let text = key_text(alloc, count, key)?;
    let bytes = field(alloc, value)?;
    let key = key_within(text)?;
    let value = value_within(bytes)?;
    Ok((key, value))
}

/// `MODE TUPLE`, for an index whose keys have so many fields. The form of both is judged before the
/// tuple's length.
pub fn read_search(alloc: Global, count: u8, words: Pieces<'_>) -> Result<(Mode, Tuple), Refusal>
    requires { count ≤ MAX_FIELDS }
    ensures { Gives (λ s. (s.0, s.1.fields)) result (search_parts count (pieces_left words.entry)) }
{
    let Some((mode, tuple)) = two_words(words) else {
        return Err(Refusal::Flawed(Flaw::BadLine));
    };
    let Some(mode) = find_mode(mode) else {
        return Err(Refusal::Flawed(Flaw::BadLine));
    };
    let text = tuple_text(alloc, count, tuple)?;
    let tuple = tuple_within(text)?;
    Ok((mode, tuple))
}

/// The fields of a key's word, if there are exactly so many.
pub fn key_text(alloc: Global, count: u8, word: &[u8]) -> Result<KeyText, Refusal>
    requires { count ≤ MAX_FIELDS }
    ensures fields { Gives text_fields result (or_bad (key_spelled count word.now)) }
    ensures counted { IfOk result (λ t. length t.ends.items ≡ count) }
    ensures rise { IfOk result (λ t. RiseTo 0 t.ends.items (length t.bytes.items)) }
{
    let text = tuple_text(alloc, count, word)?;
    if text.ends.len() != usize::from(count) {
        return Err(Refusal::Flawed(Flaw::BadLine));
    }
    Ok(text)
}

/// The fields of a tuple's word, if there are at most so many.
fn tuple_text(alloc: Global, most: u8, word: &[u8]) -> Result<KeyText, Refusal>
    requires { most ≤ MAX_FIELDS }
    ensures fields { Gives text_fields result (or_bad (tuple_spelled most word.now)) }
    ensures few { IfOk result (λ t. length t.ends.items ≤ most) }
    ensures rise { IfOk result (λ t. RiseTo 0 t.ends.items (length t.bytes.items)) }
{
    let mut bytes = Vec::with_capacity(alloc, word.len())?;
    let mut ends = ArrayVec::new();
    for text in Pieces::new(word, b',') {
        if ends.len() == usize::from(most) {
            return Err(Refusal::Flawed(Flaw::BadLine));
        }
        add_field(&mut bytes, text)?;
        ends.push(bytes.len());
    }
    Ok(KeyText { bytes, ends })
}

/// The key of these fields, if it isn't too long.
pub fn key_within(text: KeyText) -> Result<Key, Refusal>
    requires some { 0 < length text.ends.items }
    requires few { length text.ends.items ≤ MAX_FIELDS }
    requires rise { RiseTo 0 text.ends.items (length text.bytes.items) }
    ensures { Gives (λ k. k.tuple) result (short_key (text_fields text)) }
{
    let KeyText { bytes, ends } = text;
    match Key::from_parts(bytes, &ends) {
        Ok(key) => Ok(key),
        Err(KeyError::TooLong(_)) => Err(Refusal::Flawed(Flaw::TooLong)),
        Err(_) => Err(Refusal::NoMemory),
    }
}

fn tuple_within(text: KeyText) -> Result<Tuple, Refusal>
    requires few { length text.ends.items ≤ MAX_FIELDS }
    requires rise { RiseTo 0 text.ends.items (length text.bytes.items) }
    ensures { Gives (λ t. t.fields) result (short_key (text_fields text)) }
{
    let KeyText { bytes, ends } = text;
    match Tuple::from_parts(bytes, &ends) {
        Ok(tuple) => Ok(tuple),
        Err(KeyError::TooLong(_)) => Err(Refusal::Flawed(Flaw::TooLong)),
        Err(_) => Err(Refusal::NoMemory),
    }
}

/// The value of these bytes, if it isn't too long.
pub fn value_within(bytes: Vec<u8>) -> Result<Value, Refusal>
    ensures { Gives (λ v. v) result (short_value bytes.items) }
{
    match Value::try_new(bytes) {
        Ok(value) => Ok(value),
        Err(KeyError::TooLong(_)) => Err(Refusal::Flawed(Flaw::TooLong)),
        Err(_) => Err(Refusal::NoMemory),
    }
}

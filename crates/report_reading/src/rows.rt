//! Keys, values and rows of a line.
ghost use Rattle.report_forms.specs.Limits.{is_key, is_value, is_row};
ghost use Rattle.report_reading.specs.Reads.{Tells, passing};
ghost use Rattle.report_reading.specs.Rows.{row_in, row_seen};
ghost use Rattle.script.specs.Grammar.{field_of, tuple_of};
ghost use Rattle.script.specs.Pieces.{pieces_left};
ghost use Rattle.script.specs.Schema.{IsFieldCount};

use crate::misread::Misread;
use key_tuple::{Key, Value};
use script::{Pieces, key_text, key_within, read_field, two_words, value_within};
use std::alloc::Global;

/// The key of a word, of so many fields.
pub fn key_in(alloc: Global, fields: u8, word: &[u8]) -> Result<Key, Misread>
    requires { IsFieldCount fields }
    ensures { Tells (λ k. k.tuple) result (passing (is_key fields) (tuple_of word.now)) }
{
    let text = key_text(alloc, fields, word)?;
    Ok(key_within(text)?)
}

/// The value of a word.
pub fn value_in(alloc: Global, word: &[u8]) -> Result<Value, Misread>
    ensures { Tells (λ v. v) result (passing is_value (field_of word.now)) }
{
    let bytes = read_field(alloc, word)?;
    Ok(value_within(bytes)?)
}

/// `KEY VALUE`, for an index whose keys have so many fields.
pub fn row_in(alloc: Global, fields: u8, words: Pieces<'_>) -> Result<(Key, Value), Misread>
    requires { IsFieldCount fields }
    ensures { Tells row_seen result (passing (is_row fields) (row_in (pieces_left words.entry))) }
{
    let Some((key, value)) = two_words(words) else {
        return Err(Misread::BadLine);
    };
    let key = key_in(alloc, fields, key)?;
    let value = value_in(alloc, value)?;
    Ok((key, value))
}

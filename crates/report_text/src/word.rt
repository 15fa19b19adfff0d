//! The words that a line is made of.
ghost use Rattle.std.specs.Prelude.{◌≡◌, ◌++◌, OnOk, OnErr, decimal};
ghost use Rattle.report_text.specs.Line.{KeepsBytes};
ghost use Rattle.report_text.specs.Words.{text_of};

use crate::field::{put_field, put_key};
use crate::statistics::put_counts;
use itoa::Buffer;
use key_tuple::Fields;
use map_history::Counts;
use std::alloc::AllocError;

/// One word of a line.
pub enum Word<'a, K> {
    /// A text that is written as it is.
    Text(&'a str),
    /// A number in decimal digits.
    Number(u64),
    /// `@` and a number.
    Point(u64),
    /// The bytes of a value.
    Value(&'a [u8]),
    /// The fields of a key.
    Key(&'a K),
    /// The words of statistics, each with its number, and a space between each two.
    Statistics(&'a Counts),
}

impl<'a, K> Clone for Word<'a, K> {
    ghost is_clone = { λ w c. c ≡ w };

    fn clone(&self) -> Result<Word<'a, K>, AllocError> {
        Ok(*self)
    }
}

impl<'a, K> Copy for Word<'a, K> {}

/// Appends a number in decimal digits.
pub(crate) fn put_number(out: &mut Vec<u8>, number: u64) -> Result<(), AllocError>
    ensures ok { OnOk result (out.new.items ≡ out.old.items ++ decimal number) }
    ensures err { OnErr result (KeepsBytes out.old.items out.new.items) }
{
    let mut digits = Buffer::new();
    out.extend_from_slice(digits.format(number).as_bytes())
}

pub(crate) fn put_word<K: Fields>(out: &mut Vec<u8>, word: &Word<'_, K>) -> Result<(), AllocError>
    ensures ok { OnOk result (out.new.items ≡ out.old.items ++ text_of K.fields_of word.now) }
    ensures err { OnErr result (KeepsBytes out.old.items out.new.items) }
{
    match word {
        Word::Text(text) => out.extend_from_slice(text.as_bytes()),
        Word::Number(number) => put_number(out, *number),
        Word::Point(number) => {
            out.push(b'@')?;
            put_number(out, *number)
        }
        Word::Value(bytes) => put_field(out, bytes),
        Word::Key(key) => put_key(out, *key),
        Word::Statistics(counts) => put_counts(out, counts),
    }
}

//! A line: some words, a space between each two, and the end of the line.
ghost use Rattle.std.specs.Prelude.{◌≡◌, ◌++◌, map, OnOk, OnErr};
ghost use Rattle.map_history.specs.Text.{line_of};
ghost use Rattle.report_text.specs.Line.{KeepsBytes};
ghost use Rattle.report_text.specs.Words.{text_of};

use crate::field::put_separator;
use crate::word::{Word, put_word};
use key_tuple::{Fields, NoMemory};
use std::alloc::AllocError;

/// Appends the whole line, or nothing.
pub fn put_line<K: Fields>(out: &mut Vec<u8>, words: &[Word<'_, K>]) -> Result<(), NoMemory>
    ensures ok { OnOk result (out.new.items ≡ out.old.items
        ++ line_of (map (text_of K.fields_of) words.now)) }
    ensures err { OnErr result (out.new.items ≡ out.old.items) }
{
    let start = out.len();
    match put_words(out, words) {
        Ok(()) => Ok(()),
        Err(_) => {
            out.truncate(start);
            Err(NoMemory)
        }
    }
}

fn put_words<K: Fields>(out: &mut Vec<u8>, words: &[Word<'_, K>]) -> Result<(), AllocError>
    ensures ok { OnOk result (out.new.items ≡ out.old.items
        ++ line_of (map (text_of K.fields_of) words.now)) }
    ensures err { OnErr result (KeepsBytes out.old.items out.new.items) }
{
    for (i, word) in words.iter().enumerate() {
        put_separator(out, b' ', i)?;
        put_word(out, word)?;
    }
    out.push(b'\n')?;
    Ok(())
}

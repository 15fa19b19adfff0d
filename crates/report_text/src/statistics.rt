//! The line of an index's statistics.
ghost use Rattle.std.specs.Prelude.{◌≡◌, ◌++◌, OnOk, OnErr};
ghost use Rattle.map_history.specs.Spelling.{stats_text};
ghost use Rattle.report_text.specs.Line.{KeepsBytes};
ghost use Rattle.report_text.specs.Words.{count_text, counts_text};

use crate::field::put_separator;
use crate::line::put_line;
use crate::word::{Word, put_number};
use key_tuple::{Blank, NoMemory};
use map_history::{Counts, counted_words};
use std::alloc::AllocError;

/// Appends the statistics of an index.
pub fn stats<'a>(out: &mut Vec<u8>, name: &'a str, counts: &'a Counts) -> Result<(), NoMemory>
    ensures ok { OnOk result (out.new.items ≡ out.old.items ++ stats_text name.now counts.now) }
    ensures err { OnErr result (out.new.items ≡ out.old.items) }
{
    put_line::<Blank>(
        out,
        &[
            Word::Text("stats"),
            Word::Text(name),
            Word::Statistics(counts),
        ],
    )
}

/// Appends each word of the statistics and its number.
pub(crate) fn put_counts(out: &mut Vec<u8>, counts: &Counts) -> Result<(), AllocError>
    ensures ok { OnOk result (out.new.items ≡ out.old.items ++ counts_text counts.now) }
    ensures err { OnErr result (KeepsBytes out.old.items out.new.items) }
{
    let words = counted_words();
    for (place, word) in words.iter().enumerate() {
        put_separator(out, b' ', place)?;
        put_count(out, word, counts.numbers[place])?;
    }
    Ok(())
}

/// Appends a text, a space and a number.
fn put_count(out: &mut Vec<u8>, text: &str, number: u64) -> Result<(), AllocError>
    ensures ok { OnOk result (out.new.items ≡ out.old.items ++ count_text text.now number) }
    ensures err { OnErr result (KeepsBytes out.old.items out.new.items) }
{
    out.extend_from_slice(text.as_bytes())?;
    out.push(b' ')?;
    put_number(out, number)
}

//! Accepted words, split into a command and its arguments.
ghost use Rattle.std.specs.Prelude.{◌≡◌, IfOk, IfErr, map, string_bytes};
ghost use Rattle.clap.specs.Words.{found_of, kind_of, rows_of, subcommand_rows_of};
ghost use Rattle.word_split.specs.CallWords.{IsCall, words_of};
ghost use Rattle.word_split.specs.ProgramCommand.{arguments_in, call_rows};

use crate::command::program_command;
use clap::error::ErrorKind;
use clap::{ArgMatches, Error};
use std::alloc::{AllocError, Global};

/// The words of a call: its command, and the arguments behind it.
#[derive(Drop)]
pub struct SplitWords<'a> {
    pub command: &'a str,
    pub arguments: Vec<&'a str>,
}

/// Splits accepted words. An error is `clap`'s, and only for want of memory.
pub fn split<'a>(alloc: Global, words: &'a [String]) -> Result<SplitWords<'a>, Error>
    requires { IsCall (map string_bytes words.now) }
    ensures ok { IfOk result (λ split. words_of split ≡ map string_bytes words.entry.now) }
    ensures err { IfErr result (λ e. kind_of e ≡ ErrorKind.OutOfMemory) }
{
    let matches = matched(alloc, words)?;
    match matches.subcommand() {
        Some((command, found)) => Ok(SplitWords {
            command,
            arguments: arguments(alloc, found)?,
        }),
        None => unreachable!(),
    }
}

/// What `clap` finds in the words of a call.
fn matched<'a>(alloc: Global, words: &'a [String]) -> Result<ArgMatches<'a>, Error>
    requires { IsCall (map string_bytes words.now) }
    ensures ok { IfOk result (λ matches. subcommand_rows_of matches
        ≡ call_rows (map string_bytes words.entry.now)) }
    ensures err { IfErr result (λ e. kind_of e ≡ ErrorKind.OutOfMemory) }
{
    program_command(alloc)?.try_get_matches_from(words)
}

/// The arguments among what `clap` found behind a command.
fn arguments<'a>(alloc: Global, found: &ArgMatches<'a>) -> Result<Vec<&'a str>, AllocError>
    ensures { IfOk result (λ words. map (λ word. word.now) words.items
        ≡ arguments_in (rows_of (found_of found.now))) }
{
    match found.get_raw("arguments") {
        Some(words) => Vec::from_slice(alloc, words),
        None => Ok(Vec::new(alloc)),
    }
}

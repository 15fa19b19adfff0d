//! A run's end in words.
use crate::flaw::{NO_INDEX, flaw_of_lane, flaw_of_schema, long_part};
use crate::lines::{line_of, put_shown, word_of};
use crate::sizes::put_wanted;
use crate::told::{Told, read};
use crate::usage::put_wrong_use;
use std::alloc::{AllocError, Global};
use std::fmt::Write;

/// The number of the file whose line is refused by the line that was put, if one is: 0 for the
/// schema, and from 1 on for the lanes.
pub fn refused_file(told: &[u8]) -> Option<usize> {
    match read(told)? {
        Told::Script { file, .. } => Some(file),
        _ => None,
    }
}

/// Why a run of these words ended with the status of this number, when `told` was put first. Of a
/// file whose line is refused `bytes` has the bytes, where they can be read again. Nothing is said
/// of a run that is done.
pub fn explain(
    alloc: Global,
    status: u8,
    words: &[String],
    told: &[u8],
    bytes: Option<&[u8]>,
) -> Result<String, AllocError> {
    let mut text = String::new(alloc);
    let put = match status {
        0 => Ok(()),
        2 => put_wrong_use(&mut text, words),
        4 => text.push_str("the standard output didn't take all that was put"),
        6 => text.push_str("there was no memory"),
        _ => put_refusal(&mut text, words, told, bytes),
    };
    put?;
    Ok(text)
}

/// Puts in words what the line of a refusal tells.
fn put_refusal(
    text: &mut String,
    words: &[String],
    told: &[u8],
    bytes: Option<&[u8]>,
) -> Result<(), AllocError> {
    match read(told) {
        Some(Told::Script { file, line, code }) => {
            put_place(text, name_of(words, file), line)?;
            put_flaw(text, file, code, line_in(bytes, line))
        }
        Some(Told::File { file, said }) => put_file(text, name_of(words, file), said),
        Some(Told::Sizes { setting }) => put_wanted(text, setting, words.len().saturating_sub(2)),
        None => text.push_str("the run was refused"),
    }
}

fn put_place(text: &mut String, name: &str, line: u64) -> Result<(), AllocError> {
    write!(text, "{name}, line {line}: ")
}

fn put_file(text: &mut String, name: &str, said: &str) -> Result<(), AllocError> {
    write!(text, "{name}: {said}")
}

/// The name of the file of this number among the words.
fn name_of(words: &[String], file: usize) -> &str {
    match words.get(file.saturating_add(1)) {
        Some(name) => name.as_str(),
        None => "a file",
    }
}

/// The line of this number, where the file's bytes are known and have it.
fn line_in(bytes: Option<&[u8]>, number: u64) -> Option<&[u8]> {
    line_of(bytes?, number)
}

/// Puts what is wrong with a line, and the line itself where it is known.
fn put_flaw(
    text: &mut String,
    file: usize,
    code: u64,
    line: Option<&[u8]>,
) -> Result<(), AllocError> {
    let Some(line) = line else {
        return text.push_str(general_flaw(code));
    };
    if line.is_empty() {
        return text.push_str(NO_INDEX);
    }
    let (flaw, name) = flaw_and_name(file, code, line);
    put_shown(text, flaw, name)?;
    put_shown(text, " (", line)?;
    text.push(')')
}

/// What a code says of any line.
fn general_flaw(code: u64) -> &'static str {
    match code {
        1 => "it isn't in the grammar",
        2 => "no index of the schema has its name",
        _ => "its key or its value has too many bytes",
    }
}

/// What a code says of this line, and the name that is shown behind that, if one is.
fn flaw_and_name(file: usize, code: u64, line: &[u8]) -> (&'static str, &[u8]) {
    match (file, code) {
        (0, 1) => (flaw_of_schema(line), &[]),
        (_, 1) => (flaw_of_lane(line), &[]),
        (_, 2) => ("no index is called ", word_of(line, 1)),
        _ => (long_part(line), &[]),
    }
}

//! What is wrong with words that aren't accepted.
use std::alloc::AllocError;
use std::fmt::Write;

/// Puts what is wrong with the words after the program's name.
pub fn put_wrong_use(text: &mut String, words: &[String]) -> Result<(), AllocError> {
    match wrong_word(words) {
        Some((before, word, behind)) => write!(text, "{before}{word}{behind}"),
        None => put_wrong_count(text, words.len()),
    }
}

/// The first word that isn't accepted, between what is said before and behind it.
fn wrong_word(words: &[String]) -> Option<(&'static str, &str, &'static str)> {
    let [command, files @ ..] = words else {
        let said = "no command is given, or a word isn't UTF-8; ahi run SCHEMA LANE.. is one";
        return Some((said, "", ""));
    };
    if command.as_str() != "run" {
        return Some(("no command is called ", command.as_str(), "; run is one"));
    }
    for name in files {
        if name.is_empty() {
            return Some(("an empty word names no file", "", ""));
        }
        if name.starts_with('-') {
            return Some(("", name.as_str(), " begins with - and names no file"));
        }
    }
    None
}

/// Puts that the files among so many words are too few or too many.
fn put_wrong_count(text: &mut String, words: usize) -> Result<(), AllocError> {
    match words.checked_sub(2) {
        None => text.push_str("run wants a schema and 1 to 64 lanes"),
        Some(lanes) => write!(
            text,
            "run wants a schema and 1 to 64 lanes; {lanes} lanes are named"
        ),
    }
}

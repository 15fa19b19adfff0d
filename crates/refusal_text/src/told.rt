//! The line of a refusal, read again.
use std::str;

/// What a refusal's line tells. Files are numbered from 0: the schema, then the lanes.
#[derive(Clone, Copy)]
pub enum Told<'a> {
    Script { file: usize, line: u64, code: u64 },
    File { file: usize, said: &'static str },
    Sizes { setting: &'a str },
}

/// Reads the line of a refusal, if it is one.
pub fn read(line: &[u8]) -> Option<Told<'_>> {
    let [text @ .., b'\n'] = line else {
        return None;
    };
    let (word, rest) = str::from_utf8(text).ok()?.split_once(' ')?;
    match word {
        "script" => read_script(rest),
        "sizes" => Some(Told::Sizes { setting: rest }),
        _ => read_file(word, rest),
    }
}

fn read_script(rest: &str) -> Option<Told<'_>> {
    let (file, rest) = number_before(rest)?;
    let (line, code) = number_before(rest)?;
    Some(Told::Script {
        file: file as usize,
        line,
        code: number_of(code)?,
    })
}

/// The number in front of the first space, and what stands behind it.
fn number_before(text: &str) -> Option<(u64, &str)> {
    let (number, rest) = text.split_once(' ')?;
    Some((number_of(number)?, rest))
}

fn number_of(text: &str) -> Option<u64> {
    text.parse::<u64>().ok()
}

fn read_file<'a>(word: &str, file: &str) -> Option<Told<'a>> {
    let said = match word {
        "shelf" => "it isn't there, or can't be read",
        "too-large" => "with it the files have more than 67,108,864 bytes together",
        _ => return None,
    };
    let file = number_of(file)? as usize;
    Some(Told::File { file, said })
}

//! Lines of files: found, cut into words, and shown.
use std::alloc::AllocError;
use std::fmt::Write;

/// The most bytes of a line that are shown.
const MOST: usize = 60;

/// The line of this number, counted from 1; what stands behind the last byte 10 counts too.
pub fn line_of(file: &[u8], number: u64) -> Option<&[u8]> {
    part_of(file, b'\n', number.checked_sub(1)?)
}

/// The word at this place of a line, counted from 0; an empty one where the line has fewer.
pub fn word_of(line: &[u8], place: u64) -> &[u8] {
    part_of(line, b' ', place).unwrap_or(b"")
}

/// The part at this place, counted from 0, of those that stand between these bytes.
fn part_of(bytes: &[u8], between: u8, place: u64) -> Option<&[u8]> {
    let mut left = place;
    for part in bytes.split(|byte| *byte == between) {
        if left == 0 {
            return Some(part);
        }
        left = left.saturating_sub(1);
    }
    None
}

/// How many words a line has: one more than it has spaces.
pub fn count_of_words(line: &[u8]) -> usize {
    let mut count: usize = 1;
    for byte in line {
        if *byte == b' ' {
            count = count.saturating_add(1);
        }
    }
    count
}

/// Puts some bytes behind a text, as they are shown: those that can't be printed by their number, and
/// no more than 60.
pub fn put_shown(text: &mut String, before: &str, bytes: &[u8]) -> Result<(), AllocError> {
    text.push_str(before)?;
    for byte in bytes.iter().take(MOST) {
        put_byte(text, *byte)?;
    }
    if bytes.len() > MOST {
        text.push_str("..")?;
    }
    Ok(())
}

fn put_byte(text: &mut String, byte: u8) -> Result<(), AllocError> {
    if byte >= b' ' && byte <= b'~' {
        text.push(char::from(byte))
    } else {
        write!(text, "\\x{byte:02x}")
    }
}

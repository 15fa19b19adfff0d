//! Fields and values as text.
ghost use Rattle.std.specs.Prelude.{◌≡◌, ◌<◌, length, not, IfSome, MatchOption, Some, None};
ghost use Rattle.std.specs.List.{position};
ghost use Rattle.map_history.specs.Text.{is_plain};
ghost use Rattle.script.specs.Grammar.{digit_of, byte_of, bytes_of, field_of, in_front, behind};
ghost use Rattle.script.specs.Pieces.{IsFirstByte};
ghost use Rattle.script.specs.Steps.{Gives, Leaves, or_bad};

use crate::error::{Flaw, Refusal};
use std::alloc::Global;

/// The bytes that a field's or a value's text stands for.
pub fn field(alloc: Global, text: &[u8]) -> Result<Vec<u8>, Refusal>
    ensures { Gives (λ v. v.items) result (or_bad (field_of text.now)) }
{
    let mut bytes = Vec::with_capacity(alloc, text.len())?;
    add_field(&mut bytes, text)?;
    Ok(bytes)
}

/// Puts the bytes that a field's text stands for behind others; `~` is the empty field.
pub fn add_field(bytes: &mut Vec<u8>, text: &[u8]) -> Result<(), Refusal>
    ensures { Leaves result (or_bad (behind bytes.old.items (field_of text.now)))
        bytes.new.items }
{
    match text {
        [] => Err(Refusal::Flawed(Flaw::BadLine)),
        [b'~'] => Ok(()),
        _ => decode(bytes, text),
    }
}

/// Bytes that stand for themselves are put together, up to the next that doesn't.
fn decode(bytes: &mut Vec<u8>, text: &[u8]) -> Result<(), Refusal>
    ensures { Leaves result (or_bad (behind bytes.old.items (bytes_of text.now)))
        bytes.new.items }
{
    let mut rest = text;
    'text: while let Some(at) = first_escape(rest) {
        bytes.extend_from_slice(&rest[..at])?;
        let Some((byte, after)) = first_byte(&rest[at..]) else {
            return Err(Refusal::Flawed(Flaw::BadLine));
        };
        bytes.push(byte)?;
        rest = after;
    }
    bytes.extend_from_slice(rest)?;
    Ok(())
}

/// Where the first byte is that doesn't stand for itself.
fn first_escape(text: &[u8]) -> Option<usize>
    ensures { result ≡ position (λ b. not (is_plain b)) text.now }
{
    text.iter().position(|byte| !stands_alone(*byte))
}

/// The byte at the front of a text, and the text after it.
fn first_byte(text: &[u8]) -> Option<(u8, &[u8])>
    requires { 0 < length text.now }
    ensures { MatchOption result (bytes_of text.now ≡ None)
        (λ p. IsFirstByte text.now p.0 p.1.now) }
{
    match text {
        [b'%', high, low, after @ ..] => Some((escaped(*high, *low)?, after)),
        [byte, after @ ..] if stands_alone(*byte) => Some((*byte, after)),
        _ => None,
    }
}

fn escaped(high: u8, low: u8) -> Option<u8>
    ensures { result ≡ byte_of high low }
{
    Some(digit(high)? * 16 + digit(low)?)
}

fn digit(byte: u8) -> Option<u8>
    ensures value { result ≡ digit_of byte }
    ensures small { IfSome result (λ d. d < 16) }
{
    match byte {
        b'0'..=b'9' => Some(byte - b'0'),
        b'a'..=b'f' => Some(byte - b'a' + 10),
        b'A'..=b'F' => Some(byte - b'A' + 10),
        _ => None,
    }
}

fn stands_alone(byte: u8) -> bool
    ensures { result ≡ is_plain byte }
{
    // most bytes are behind the comma
    if b',' < byte {
        byte <= b'}'
    } else {
        b'!' <= byte && byte != b'%' && byte != b','
    }
}

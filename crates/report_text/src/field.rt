//! Fields, values and keys as text.
ghost use Rattle.std.specs.Prelude.{◌≡◌, ◌<◌, ◌++◌, not, OnOk, OnErr};
ghost use Rattle.map_history.specs.Text.{is_plain, hex_digit, byte_text, field_text, key_text};
ghost use Rattle.std.specs.List.{flat_map, position};
ghost use Rattle.report_text.specs.Line.{KeepsBytes, separator};

use key_tuple::Fields;
use std::alloc::AllocError;

/// The byte stands for itself.
fn is_plain(byte: u8) -> bool
    ensures { result ≡ is_plain byte }
{
    // most bytes are behind the comma
    if b',' < byte {
        byte <= b'}'
    } else {
        b'!' <= byte && byte != b'%' && byte != b','
    }
}

/// The digit of a number below 16, in lower case.
fn hex_digit(number: u8) -> u8
    requires { number < 16 }
    ensures { result ≡ hex_digit number }
{
    if number < 10 {
        b'0' + number
    } else {
        b'a' + (number - 10)
    }
}

fn put_byte(out: &mut Vec<u8>, byte: u8) -> Result<(), AllocError>
    ensures ok { OnOk result (out.new.items ≡ out.old.items ++ byte_text byte) }
    ensures err { OnErr result (KeepsBytes out.old.items out.new.items) }
{
    if is_plain(byte) {
        out.push(byte)?;
    } else {
        out.extend_from_slice(&[b'%', hex_digit(byte / 16), hex_digit(byte % 16)])?;
    }
    Ok(())
}

/// Bytes that stand for themselves are put together, up to the next that doesn't.
fn put_bytes(out: &mut Vec<u8>, bytes: &[u8]) -> Result<(), AllocError>
    ensures ok { OnOk result (out.new.items ≡ out.old.items ++ flat_map byte_text bytes.now) }
    ensures err { OnErr result (KeepsBytes out.old.items out.new.items) }
{
    let mut rest = bytes;
    'rest: while let Some(at) = first_escape(rest) {
        put_run(out, &rest[..at], rest[at])?;
        rest = &rest[at + 1..];
    }
    out.extend_from_slice(rest)?;
    Ok(())
}

/// Where the first byte is that doesn't stand for itself.
fn first_escape(bytes: &[u8]) -> Option<usize>
    ensures { result ≡ position (λ b. not (is_plain b)) bytes.now }
{
    bytes.iter().position(|byte| !is_plain(*byte))
}

/// Some bytes as they are, and one as its text.
fn put_run(out: &mut Vec<u8>, run: &[u8], byte: u8) -> Result<(), AllocError>
    ensures ok { OnOk result (out.new.items ≡ (out.old.items ++ run.now) ++ byte_text byte) }
    ensures err { OnErr result (KeepsBytes out.old.items out.new.items) }
{
    out.extend_from_slice(run)?;
    put_byte(out, byte)
}

/// The bytes of a field or a value, or `~` where there is none.
pub(crate) fn put_field(out: &mut Vec<u8>, bytes: &[u8]) -> Result<(), AllocError>
    ensures ok { OnOk result (out.new.items ≡ out.old.items ++ field_text bytes.now) }
    ensures err { OnErr result (KeepsBytes out.old.items out.new.items) }
{
    if bytes.is_empty() {
        out.push(b'~')?;
        return Ok(());
    }
    put_bytes(out, bytes)
}

/// The byte, but for the first of the parts that it stands between.
pub(crate) fn put_separator(out: &mut Vec<u8>, byte: u8, place: usize) -> Result<(), AllocError>
    ensures ok { OnOk result (out.new.items ≡ out.old.items ++ separator byte place) }
    ensures err { OnErr result (KeepsBytes out.old.items out.new.items) }
{
    if place > 0 {
        out.push(byte)?;
    }
    Ok(())
}

/// The fields of a key, joined by `,`.
pub(crate) fn put_key<K: Fields>(out: &mut Vec<u8>, key: &K) -> Result<(), AllocError>
    ensures ok { OnOk result (out.new.items ≡ out.old.items ++ key_text (K.fields_of key.now)) }
    ensures err { OnErr result (KeepsBytes out.old.items out.new.items) }
{
    for i in 0..key.count() {
        put_separator(out, b',', usize::from(i))?;
        put_field(out, key.field(i))?;
    }
    Ok(())
}

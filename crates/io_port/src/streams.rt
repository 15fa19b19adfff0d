//! Reading a reader to its end, within a limit, and writing bytes whole.
ghost use Rattle.std.specs.Prelude.{◌≡◌, ◌<◌, ◌≤◌, length, take, IfOk, IfErr, IfSome, IfNone, OnOk, OnErr, vec_len};
ghost use Rattle.std.specs.Io.Buffered.{writer_contents};
ghost use Rattle.std.specs.Io.KnownBytes.{Appends, Consumes, IsAtEnd, Keeps};
ghost use Rattle.io_port.specs.Streams.{IsAllOf, ReadsTooMany, AppendsSome};

use crate::{ShelfError, SinkError};
use std::alloc::Global;
use std::io::{BufWriter, ErrorKind, Read, Write};

// How many bytes one read asks for at most.
const PIECE: usize = 16_384;

/// Reads to the end, which is a read that gives nothing, and at most one byte past the limit.
pub(crate) fn read_within<R: Read>(
    alloc: Global,
    reader: &mut R,
    limit: u64,
) -> Result<Vec<u8>, ShelfError>
    ensures ok { IfOk result (λ bytes. IsAllOf (R.remaining reader.old) bytes.items) }
    ensures within { IfOk result (λ bytes. vec_len bytes ≤ limit) }
    ensures too_long { IfErr result (ReadsTooMany (R.remaining reader.old) limit) }
{
    let mut bytes = Vec::new(alloc);
    let mut piece = [0u8; PIECE];
    'reads: while bytes.len() as u64 <= limit {
        let spare = limit - bytes.len() as u64;
        let room = spare.min(PIECE as u64 - 1) as usize + 1;
        let Some(read) = read_some(reader, &mut piece[..room]) else {
            return Err(ShelfError::Failed);
        };
        if read == 0 {
            return Ok(bytes);
        }
        bytes.extend_from_slice(&piece[..read])?;
    }
    Err(ShelfError::TooLong(limit))
}

// One read, made again where a signal interrupts it.
fn read_some<R: Read>(reader: &mut R, piece: &mut [u8]) -> Option<usize>
    ensures bound { IfSome result (λ read. read ≤ length piece.new) }
    ensures bytes { IfSome result
        (λ read. Consumes (R.remaining reader.old) (R.remaining reader.new) (take read piece.new)) }
    ensures end { IfSome result
        (λ read. read ≡ 0 → 0 < length piece.new → IsAtEnd (R.remaining reader.new)) }
{
    'tries: for _ in 0..u64::MAX {
        match reader.read(piece) {
            Ok(read) => return Some(read),
            Err(error) if error.kind() == ErrorKind::Interrupted => {}
            Err(_) => return None,
        }
    }
    None
}

/// Writes all the bytes. A write that takes none of them is a failure.
pub(crate) fn write_whole<W: Write>(writer: &mut W, bytes: &[u8]) -> Result<(), SinkError>
    ensures ok { OnOk result (Appends (W.contents writer.old) (W.contents writer.new) bytes.now) }
    ensures err { OnErr result
        (AppendsSome (W.contents writer.old) (W.contents writer.new) bytes.now) }
{
    let mut done = 0;
    'writes: while done < bytes.len() {
        match write_some(writer, &bytes[done..]) {
            Some(taken) => done += taken,
            None => return Err(SinkError::Failed),
        }
    }
    Ok(())
}

// One write that takes some of the bytes, made again where a signal interrupts it.
fn write_some<W: Write>(writer: &mut W, bytes: &[u8]) -> Option<usize>
    ensures some { IfSome result (λ taken. 0 < taken) }
    ensures bound { IfSome result (λ taken. taken ≤ length bytes.now) }
    ensures bytes { IfSome result
        (λ taken. Appends (W.contents writer.old) (W.contents writer.new) (take taken bytes.now)) }
    ensures none { IfNone result (Keeps (W.contents writer.old) (W.contents writer.new)) }
{
    'tries: for _ in 0..u64::MAX {
        match writer.write(bytes) {
            Ok(0) => return None,
            Ok(taken) => return Some(taken),
            Err(error) if error.kind() == ErrorKind::Interrupted => {}
            Err(_) => return None,
        }
    }
    None
}

/// Writes what the buffer keeps, flushes the writer behind it and gives that.
pub(crate) fn finish_writer<W: Write + Drop>(mut buffer: BufWriter<W>) -> Result<W, SinkError>
    ensures { IfOk result
        (λ writer. Keeps (writer_contents W.contents buffer) (W.contents writer)) }
{
    if buffer.flush().is_err() {
        return Err(SinkError::Failed);
    }
    match buffer.into_inner() {
        Ok(writer) => Ok(writer),
        Err(_) => Err(SinkError::Failed),
    }
}

//! Streams that fail midway, and an output that is written in blocks.
use crate::ends::loads;
use crate::fake_files::Drips;
use crate::fakes::Narrow;
use io_port::{FileShelf, OutSink, ShelfError, Sink};
use std::process::Abort;
use std::sync::atomic::{AtomicU32, Ordering};

const TEXT: &[u8] = b"0123456789";

/// A put of so many bytes goes past the block, to the writer itself, until less than a block is left.
const LONG: usize = 65_546;

/// The read that fails, the limit, what the load gives or how it ends, and the reads that were made.
type Reading = (u32, u64, Result<&'static [u8], ShelfError>, u32);

static READINGS: [Reading; 3] = [
    (99, 10, Ok(TEXT), 5),
    (2, 10, Err(ShelfError::Failed), 2),
    (4, 5, Err(ShelfError::TooLong(5)), 2),
];

#[test]
fn a_reader_is_read_to_its_end_or_fails(rt: HostRuntime) {
    for row in READINGS.iter() {
        assert!(rt; reads_so(&rt, row));
    }
}

#[test]
fn a_writer_takes_all_or_fails(rt: HostRuntime) {
    assert_taken(&rt, LONG, true);
    assert_taken(&rt, 7, false);
}

/// The room of the writer, the puts of ten bytes, whether they are taken, and what it has then.
static BLOCKS: [(usize, u32, bool, Option<usize>); 4] = [
    (0, 6_553, true, None),
    (0, 6_554, false, None),
    (65_530, 6_554, true, None),
    (65_540, 6_554, true, Some(65_540)),
];

#[test]
fn the_output_is_written_in_blocks(rt: HostRuntime) {
    for (room, puts, is_put, taken) in BLOCKS.iter() {
        let mut sink = sink_of(&rt, *room);
        assert!(rt; put_often(&mut sink, *puts) == *is_put);
        assert!(rt; count_taken(sink) == *taken);
    }
}

// After a failure nothing more is asked of the reader.
fn reads_so<R: AllocGlobal>(rt: &R, row: &Reading) -> bool {
    let (fail_from, limit, want, reads) = row;
    let count = AtomicU32::new(0);
    let files = Drips {
        text: TEXT,
        reads: &count,
        fail_from: *fail_from,
    };
    let is_so = loads(rt, &mut FileShelf::new(&files), "a", *limit, *want);
    is_so && count.load(Ordering::SeqCst) == *reads
}

// An output over a writer with room for so many bytes.
fn sink_of<R: AllocGlobal + Abort>(rt: &R, room: usize) -> OutSink<Narrow> {
    let writer = Narrow::with_room(rt.alloc(), room).expect(rt, "a writer");
    OutSink::new(rt.alloc(), writer).expect(rt, "an output")
}

// A long put is taken whole, or of it as many bytes as there is room for.
fn assert_taken<R: AllocGlobal + Abort>(rt: &R, room: usize, is_whole: bool) {
    let mut text = TEXT.to_vec(rt.alloc()).expect(rt, "a text");
    text.resize(LONG, b'x').expect(rt, "memory for a long text");
    let mut sink = sink_of(rt, room);
    assert!(rt; sink.put(&text).is_ok() == is_whole);
    let writer = sink.finish().expect(rt, "a writer");
    assert!(rt; text.get(..room) == Some(writer.taken()));
}

// How many bytes the writer has after the end, which may fail.
fn count_taken(sink: OutSink<Narrow>) -> Option<usize> {
    match sink.finish() {
        Ok(writer) => Some(writer.taken().len()),
        Err(_) => None,
    }
}

fn put_often<K: Sink>(sink: &mut K, puts: u32) -> bool {
    for _ in 0..puts {
        if sink.put(TEXT).is_err() {
            return false;
        }
    }
    true
}

//! The ends in memory: what they are asked for, what they refuse, and a caller of both.
use crate::copying::{Copied, copy_two};
use io_port::{MemoryShelf, MemorySink, Shelf, ShelfError, Sink};
use std::process::Abort;

/// Two names, the load and the put that are to fail, the answer, and what is written.
static COPIES: [(&str, &str, u64, u64, Copied, &str); 6] = [
    ("a", "b", 9, 9, Copied::Done, "oneseven"),
    ("b", "a", 9, 9, Copied::Done, "sevenone"),
    ("a", "c", 9, 9, Copied::ShelfFault, ""),
    ("a", "b", 1, 9, Copied::ShelfFault, ""),
    ("a", "b", 9, 0, Copied::SinkFault, ""),
    ("a", "b", 9, 1, Copied::SinkFault, "one"),
];

#[test]
fn two_files_are_copied_and_each_refusal_is_told(rt: HostRuntime) {
    for (first, second, load, put, answer, written) in COPIES.iter() {
        let mut sink = sink_of_8(&rt, *put);
        assert!(rt; copied(&rt, &mut sink, first, second, *load) == *answer);
        assert!(rt; sink.written() == written.as_bytes());
    }
}

/// How it ends that two of the three files are put into the sink.
fn copied<R: AllocGlobal + Abort>(
    rt: &R,
    sink: &mut MemorySink,
    first: &str,
    second: &str,
    load: u64,
) -> Copied {
    let mut shelf = three_files(rt, load);
    copy_two(rt.alloc(), &mut shelf, sink, first, second, 5)
}

#[test]
fn a_load_has_its_limit(rt: HostRuntime) {
    let mut shelf = three_files(&rt, 9);
    assert!(rt;
        loads(&rt, &mut shelf, "b", 5, Ok(b"seven"))
            && loads(&rt, &mut shelf, "b", 4, Err(ShelfError::TooLong(4)))
    );
}

// A put that doesn't fit is refused, and leaves the room for one that does.
#[test]
fn a_put_has_its_room(rt: HostRuntime) {
    let mut sink = sink_of_8(&rt, 9);
    assert!(rt; sink.put(b"seven").is_ok() && sink.put(b"four").is_err());
    assert!(rt; sink.put(b"two").is_ok() && sink.written() == b"seventwo".as_slice());
}

/// A load gives these bytes, or ends with this error.
pub(crate) fn loads<F: Shelf, R: AllocGlobal>(
    rt: &R,
    shelf: &mut F,
    name: &str,
    limit: u64,
    want: Result<&[u8], ShelfError>,
) -> bool {
    match shelf.load(rt.alloc(), name, limit) {
        Ok(loaded) => want == Ok(loaded.as_slice()),
        Err(error) => want == Err(error),
    }
}

/// Names, and what stands in the files.
static FILES: [(&str, &str); 3] = [("a", "one"), ("b", "seven"), ("a", "two")];

// A shelf of three files, of whose loads one fails.
fn three_files<R: AllocGlobal + Abort>(rt: &R, load: u64) -> MemoryShelf {
    let mut files = Vec::new(rt.alloc());
    for (name, bytes) in FILES.iter() {
        let name = String::from_str(rt.alloc(), name).expect(rt, "a name");
        let bytes = bytes.as_bytes().to_vec(rt.alloc()).expect(rt, "a text");
        files.push((name, bytes)).expect(rt, "memory for a file");
    }
    MemoryShelf::new(files, one_number(rt, load))
}

// A sink with room for eight bytes, of whose puts one fails.
fn sink_of_8<R: AllocGlobal + Abort>(rt: &R, put: u64) -> MemorySink {
    MemorySink::with_room(rt.alloc(), 8, one_number(rt, put)).expect(rt, "a sink")
}

fn one_number<R: AllocGlobal + Abort>(rt: &R, number: u64) -> Vec<u64> {
    [number].to_vec(rt.alloc()).expect(rt, "a number")
}

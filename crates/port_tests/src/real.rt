//! Real files and the standard output.
use crate::ends::loads;
use io_port::{FileShelf, OutSink, ShelfError, Sink};
use std::{fs, io};

const PATH: &str = "port_test_file";

const BYTES: &[u8] = &[7; 10_000];

/// A name, a limit, and what the load gives or how it ends. The file is no folder, so nothing lies
/// below it. A folder is opened, and its first read fails; and no path is empty or has a byte 0.
static LOADS: [(&str, u64, Result<&[u8], ShelfError>); 9] = [
    (PATH, 10_000, Ok(BYTES)),
    (PATH, u64::MAX, Ok(BYTES)),
    (PATH, 9_999, Err(ShelfError::TooLong(9_999))),
    (PATH, 0, Err(ShelfError::TooLong(0))),
    ("port_test_file/below", 9, Err(ShelfError::Failed)),
    (".", 9, Err(ShelfError::Failed)),
    ("no_such_file", 9, Err(ShelfError::Failed)),
    ("", 9, Err(ShelfError::Failed)),
    ("port\0file", 9, Err(ShelfError::Failed)),
];

#[test]
fn a_real_file_is_loaded_whole_or_refused(rt: HostRuntime) {
    fs::write(&rt, PATH, BYTES).expect(&rt, "a file");
    for (name, limit, want) in LOADS.iter() {
        assert!(rt;
            loads(&rt, &mut FileShelf::new(&rt), name, *limit, *want),
            "{name}"
        );
    }
}

#[test]
fn standard_output_takes_bytes(rt: HostRuntime) {
    let mut sink = OutSink::new(rt.alloc(), io::writer(&rt)).expect(&rt, "a sink");
    assert!(rt; sink.put(b"a line\n").is_ok() && sink.put(b"").is_ok());
    assert!(rt; sink.finish().is_ok());
}

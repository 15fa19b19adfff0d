//! Reports of one lane over one index, and how they are read.
use report_reading::{ReadReport, ReportError, read_report};
use script::{MAX_FILE_BYTES, read_lane, read_schema};
use std::process::Abort;

/// What a test says that ends for want of memory.
pub(crate) const MEMORY: &str = "memory";

pub(crate) const SCHEMA: &[u8] = b"index t 1\n";

/// A row is put, and got, and taken out, and missed.
pub(crate) const LANE: &[u8] = b"put t a x\nget t a\ndel t a\nget t a\n";

/// Its report.
pub(crate) static LINES: [&[u8]; 11] = [
    b"ahi run\n",
    b"lane 1\n",
    b"1 ok @1 cold no\n",
    b"2 found x @1 cold no\n",
    b"3 ok @2 cold no\n",
    b"4 absent @2 cold no\n",
    b"changes t 2\n",
    b"1 1 1 put a x\n",
    b"2 1 3 del a\n",
    b"stats t hit 0 off 0 cold 4 short 0 part-busy 0 no-entry 0 block-busy 0 clock 0 unequal 0 \
        by-clock 0 by-busy 0 by-moved 0 by-last 0 built 0 same 0 arena 0 raced 0 worn 0\n",
    b"end\n",
];

/// Its bytes.
pub(crate) fn report_of<R: AllocGlobal + Abort>(rt: &R) -> Vec<u8> {
    let mut report = Vec::new(rt.alloc());
    for line in LINES.iter() {
        report.extend_from_slice(line).expect(rt, MEMORY);
    }
    report
}

/// How a report of that lane is read.
pub(crate) fn read<R: AllocGlobal + Abort>(
    rt: &R,
    report: &[u8],
) -> Result<ReadReport, ReportError> {
    assert!(rt; report.len() <= MAX_FILE_BYTES);
    let schema = read_schema(rt.alloc(), SCHEMA).expect(rt, "a schema");
    let lane = read_lane(rt.alloc(), LANE, &schema).expect(rt, "a lane");
    read_report(rt.alloc(), &schema, &[lane], report)
}

/// The number of the line at which no report of that lane can stand.
pub(crate) fn bad_line<R: AllocGlobal + Abort>(rt: &R, report: &[u8]) -> Option<u32> {
    match read(rt, report) {
        Ok(_) => None,
        Err(ReportError::BadLine { line }) => Some(line),
        Err(ReportError::NoMemory) => rt.abort(),
    }
}

//! Reports byte for byte.
use crate::setup::{Faults, LANE, MEMORY, SCHEMA, done, ends, run_failing};
use ahi_cli::Status;
use std::process::Abort;
use std::sync::Wait;
use std::thread::Threads;

/// A schema, a lane, and its report from the answers up to the statistics. Each answer is by a descent
/// of an index that has learnt nothing yet.
static REPORTS: [(&str, &str, &str); 7] = [
    (SCHEMA, "", "changes t 0\n"),
    (
        SCHEMA,
        LANE,
        "1 ok @1 cold no\n2 found x @1 cold no\n3 ok @2 cold no\n4 absent @2 cold no\nchanges t 2\n1 1 1 put a x\n2 1 3 del a\n",
    ),
    (
        SCHEMA,
        "put t a x\nput t a y\n",
        "1 ok @1 cold no\n2 duplicate @1 cold no\nchanges t 1\n1 1 1 put a x\n",
    ),
    (SCHEMA, "del t a\n", "1 absent @0 cold no\nchanges t 0\n"),
    (
        SCHEMA,
        "set t a x\nput t a x\nset t a yz\nget t a\nset t a ~\nget t a\n",
        "1 absent @0 cold no\n2 ok @1 cold no\n3 ok @2 cold no\n4 found yz @2 cold no\n5 ok @3 cold no\n6 found ~ @3 cold no\nchanges t 3\n1 1 2 put a x\n2 1 3 set a yz\n3 1 5 set a ~\n",
    ),
    (
        "index t 2\n",
        "put t ab,~ 1\nput t a,%00 2\nput t a,~ 3\nget t ab,~\nget t a,%00\nget t a,~\n",
        "1 ok @1 cold no\n2 ok @2 cold no\n3 ok @3 cold no\n4 found 1 @3 cold no\n5 found 2 @3 cold no\n6 found 3 @3 cold no\nchanges t 3\n1 1 1 put ab,~ 1\n2 1 2 put a,%00 2\n3 1 3 put a,~ 3\n",
    ),
    (
        "index t 3\n",
        "put t a,x,1 p\nput t a,x,2 q\nput t a,y,1 r\nput t a,y,2 s\nseek t ge a,y\nseek t g a,x\nseek t le a,x\nseek t l a,y,1\nseek t ge a\nseek t l a\n",
        "1 ok @1 cold no\n2 ok @2 cold no\n3 ok @3 cold no\n4 ok @4 cold no\n5 found a,y,1 r @4 cold no\n6 found a,y,1 r @4 cold no\n7 found a,x,2 q @4 cold no\n8 found a,x,2 q @4 cold no\n9 found a,x,1 p @4 cold no\n10 absent @4 cold no\nchanges t 4\n1 1 1 put a,x,1 p\n2 1 2 put a,x,2 q\n3 1 3 put a,y,1 r\n4 1 4 put a,y,2 s\n",
    ),
];

/// The report of one lane whose answers and changes are these.
pub(crate) fn report_of<R: AllocGlobal + Abort>(rt: &R, middle: &str) -> String {
    let cold = middle.split(" cold no\n").count().wrapping_sub(1);
    format!(in rt.alloc();
        "ahi run\nlane 1\n{middle}stats t hit 0 off 0 cold {cold} short 0 part-busy 0 no-entry 0 block-busy 0 clock 0 unequal 0 by-clock 0 by-busy 0 by-moved 0 by-last 0 built 0 same 0 arena 0 raced 0 worn 0\nend\n"
    ).expect(rt, MEMORY)
}

/// Whether a lane is reported so, from its answers up to the statistics.
pub(crate) fn is_reported<R: AllocGlobal + Abort + Threads + Wait + Sync>(
    rt: &R,
    schema: &str,
    lane: &str,
    middle: &str,
) -> bool {
    let report = report_of(rt, middle);
    ends(rt, schema, &[lane], Status::Done, report.as_str())
}

#[test]
fn lanes_are_reported_byte_for_byte(rt: HostRuntime) {
    for (schema, lane, middle) in REPORTS.iter() {
        assert!(rt; is_reported(&rt, schema, lane, middle));
    }
}

/// Whether a text has so many lines, the last of which ends.
fn has_lines(text: &str, count: u64) -> bool {
    let is_whole = text.is_empty() || text.ends_with('\n');
    is_whole && text.split('\n').count() as u64 == count.wrapping_add(1)
}

/// No words: those that name all lanes.
const ALL: &[&str] = &[];

/// Whether a sink that fails at this put has the lines before it.
fn has_lines_before<R: AllocGlobal + Abort + Threads + Wait + Sync>(
    rt: &R,
    whole: &str,
    put: u64,
) -> bool {
    let faults = Faults {
        load: &[],
        put: &[put],
    };
    let (status, written) = run_failing(rt, ALL, SCHEMA, &[LANE], faults);
    let text = written.as_str();
    status == Status::SinkFault && whole.starts_with(text) && has_lines(text, put)
}

/// The report has eleven lines.
#[test]
fn a_sink_that_fails_has_the_lines_before(rt: HostRuntime) {
    let whole = done(&rt, SCHEMA, &[LANE]);
    for put in 0..11 {
        assert!(rt; has_lines_before(&rt, whole.as_str(), put));
    }
}

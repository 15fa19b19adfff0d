//! Runs on files in memory: the schema is the file `s`, and the lanes are `l1`, `l2` and so on.
use ahi_cli::{EnginePass, Status, run_words};
use io_port::{MemoryShelf, MemorySink};
use lanes::{Gate, NoGate};
use report_judge::{LIMITS, Limits, judge_within};
use std::alloc::Global;
use std::process::Abort;
use std::str;
use std::sync::Wait;
use std::thread::Threads;

/// What a test says that ends for want of memory.
pub(crate) const MEMORY: &str = "memory";

pub(crate) const SCHEMA: &str = "index t 1\n";

/// The lane whose run has every kind of line.
pub(crate) const LANE: &str = "put t a x\nget t a\ndel t a\nget t a\n";

/// What is written where the words aren't accepted.
pub(crate) const USAGE: &str =
    "usage: ahi run SCHEMA LANE.. | ahi page FILE | ahi gen NUMBER LANES LINES\n";

/// How many bytes of a report there is room for.
const ROOM: usize = 80_000_000;

/// The loads and the puts of a run that are to fail, counted from 0.
#[derive(Clone, Copy)]
pub(crate) struct Faults<'a> {
    pub(crate) load: &'a [u64],
    pub(crate) put: &'a [u64],
}

pub(crate) const NO_FAULTS: Faults<'static> = Faults {
    load: &[],
    put: &[],
};

/// The words of a run with 65 lanes, and so the names of the files behind the first.
static WORDS: [&str; 67] = [
    "run", "s", "l1", "l2", "l3", "l4", "l5", "l6", "l7", "l8", "l9", "l10", "l11", "l12", "l13",
    "l14", "l15", "l16", "l17", "l18", "l19", "l20", "l21", "l22", "l23", "l24", "l25", "l26",
    "l27", "l28", "l29", "l30", "l31", "l32", "l33", "l34", "l35", "l36", "l37", "l38", "l39",
    "l40", "l41", "l42", "l43", "l44", "l45", "l46", "l47", "l48", "l49", "l50", "l51", "l52",
    "l53", "l54", "l55", "l56", "l57", "l58", "l59", "l60", "l61", "l62", "l63", "l64", "l65",
];

/// How a run ends, and what it writes.
pub(crate) type Ended = (Status, String);

/// The words of a run with so many lanes.
fn words_of(lanes: usize) -> &'static [&'static str] {
    WORDS.get(..lanes.wrapping_add(2)).unwrap_or(&[])
}

/// How a run of a schema and lanes ends, which ask this gate.
pub(crate) fn run_at<R: AllocGlobal + Abort + Threads + Wait + Sync, G: Gate + Sync>(
    rt: &R,
    gate: &G,
    schema: &str,
    lanes: &[&str],
) -> Ended {
    let words = words_of(lanes.len());
    run_whole(rt, gate, words, schema, lanes, NO_FAULTS, &mut None)
}

/// How a run ends that meets these faults, where a schema and lanes are held. Its words are these, or
/// those that name all lanes where none are said.
pub(crate) fn run_failing<R: AllocGlobal + Abort + Threads + Wait + Sync>(
    rt: &R,
    words: &'static [&'static str],
    schema: &str,
    lanes: &[&str],
    faults: Faults<'_>,
) -> Ended {
    let words = if words.is_empty() {
        words_of(lanes.len())
    } else {
        words
    };
    run_whole(rt, &NoGate, words, schema, lanes, faults, &mut None)
}

/// How a run of these lanes ends that meets these faults and leaves its pass.
pub(crate) fn run_leaving<R: AllocGlobal + Abort + Threads + Wait + Sync>(
    rt: &R,
    lanes: &[&str],
    faults: Faults<'_>,
    trail: &mut Option<EnginePass>,
) -> Ended {
    let words = words_of(lanes.len());
    run_whole(rt, &NoGate, words, SCHEMA, lanes, faults, trail)
}

/// How a run of these words ends, where a schema and lanes are held.
fn run_whole<R: AllocGlobal + Abort + Threads + Wait + Sync, G: Gate + Sync>(
    rt: &R,
    gate: &G,
    words: &[&str],
    schema: &str,
    lanes: &[&str],
    faults: Faults<'_>,
    trail: &mut Option<EnginePass>,
) -> Ended {
    let words = strings(rt, words);
    let mut shelf = shelf_of(rt, schema, lanes, faults.load);
    let failing = faults.put.to_vec(rt.alloc()).expect(rt, MEMORY);
    let mut sink = MemorySink::with_room(rt.alloc(), ROOM, failing).expect(rt, MEMORY);
    let status = run_words(rt, rt, &words, &mut shelf, &mut sink, gate, trail);
    let report = str::from_utf8(sink.written()).ok().expect(rt, "a text");
    (status, string(rt, report))
}

/// Whether a run ends with this status, and writes this.
pub(crate) fn is_end(ended: &Ended, status: Status, text: &str) -> bool {
    ended.0 == status && ended.1.as_str() == text
}

/// Whether a run of a schema and lanes ends so.
pub(crate) fn ends<R: AllocGlobal + Abort + Threads + Wait + Sync>(
    rt: &R,
    schema: &str,
    lanes: &[&str],
    status: Status,
    text: &str,
) -> bool {
    is_end(&run_at(rt, &NoGate, schema, lanes), status, text)
}

/// The report of these lanes, which are done.
pub(crate) fn done<R: AllocGlobal + Abort + Threads + Wait + Sync>(
    rt: &R,
    schema: &str,
    lanes: &[&str],
) -> String {
    let (status, report) = run_at(rt, &NoGate, schema, lanes);
    assert!(rt; status == Status::Done);
    report
}

/// The report of these lanes, by a schema that sets sizes: they are done, and it is legal by the same
/// schema without sizes, within these limits.
pub(crate) fn legal_within<R: AllocGlobal + Abort + Threads + Wait + Sync>(
    rt: &R,
    limits: Limits,
    sized: &str,
    schema: &str,
    lanes: &[&str],
) -> String {
    let report = done(rt, sized, lanes);
    assert!(rt; is_legal(rt.alloc(), limits, schema, lanes, report.as_str()));
    report
}

/// Whether a report of these lanes is legal within these limits.
pub(crate) fn is_legal(
    alloc: Global,
    limits: Limits,
    schema: &str,
    lanes: &[&str],
    report: &str,
) -> bool {
    judge_within(alloc, limits, schema, lanes, report.as_bytes()).is_ok()
}

/// The legal report of these lanes, by a schema that sets no sizes.
pub(crate) fn legal_report<R: AllocGlobal + Abort + Threads + Wait + Sync>(
    rt: &R,
    schema: &str,
    lanes: &[&str],
) -> String {
    legal_within(rt, LIMITS, schema, schema, lanes)
}

fn strings<R: AllocGlobal + Abort>(rt: &R, texts: &[&str]) -> Vec<String> {
    let mut strings = Vec::new(rt.alloc());
    for text in texts {
        strings.push(string(rt, text)).expect(rt, MEMORY);
    }
    strings
}

fn string<R: AllocGlobal + Abort>(rt: &R, text: &str) -> String {
    String::from_str(rt.alloc(), text).expect(rt, MEMORY)
}

/// Adds a file of this text, by the next name.
fn add_file<R: AllocGlobal + Abort>(rt: &R, files: &mut Vec<(String, Vec<u8>)>, text: &str) {
    let place = files.len().wrapping_add(1);
    let name = string(rt, WORDS.get(place).copied().unwrap_or(""));
    let bytes = text.as_bytes().to_vec(rt.alloc()).expect(rt, MEMORY);
    files.push((name, bytes)).expect(rt, MEMORY);
}

fn shelf_of<R: AllocGlobal + Abort>(
    rt: &R,
    schema: &str,
    lanes: &[&str],
    failing: &[u64],
) -> MemoryShelf {
    let mut files = Vec::new(rt.alloc());
    add_file(rt, &mut files, schema);
    for lane in lanes {
        add_file(rt, &mut files, lane);
    }
    MemoryShelf::new(files, failing.to_vec(rt.alloc()).expect(rt, MEMORY))
}

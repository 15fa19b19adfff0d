//! Lanes whose searches are alike, until the hash answers them: reports byte for byte.
use crate::setup::{MEMORY, done, ends};
use ahi_cli::Status;
use std::process::Abort;
use std::sync::Wait;
use std::thread::Threads;

/// A line of a lane, or what an answer says behind its number, and how often it stands in a row.
type Times = (&'static str, u64);

/// What is reported of a lane by a schema: the lane, its answers, and then the changes, the
/// statistics and the end.
#[derive(Clone, Copy)]
struct Case {
    schema: &'static str,
    lane: &'static [Times],
    told: &'static [Times],
    end: &'static str,
}

/// Three keys are put, and then the middle one is asked for 300 times.
const MIDDLE: &[Times] = &[
    ("put t a 1", 1),
    ("put t b 2", 1),
    ("put t c 3", 1),
    ("get t b", 300),
];

/// The search for the middle one becomes a hit.
const HIT: Case = Case {
    schema: "index t 1\n",
    lane: MIDDLE,
    told: &[
        ("ok @1 cold no", 1),
        ("ok @2 cold no", 1),
        ("ok @3 cold no", 1),
        ("found 2 @3 cold no", 128),
        ("found 2 @3 cold built", 1),
        ("found 2 @3 cold no", 2),
        ("found 2 @3 hit -", 169),
    ],
    end: "changes t 3\n1 1 1 put a 1\n2 1 2 put b 2\n3 1 3 put c 3\nstats t hit 169 off 0 cold 134 short 0 part-busy 0 no-entry 0 block-busy 0 clock 0 unequal 0 by-clock 0 by-busy 0 by-moved 0 by-last 0 built 1 same 0 arena 0 raced 0 worn 0\nend\n",
};

/// It becomes none where there is no room for a node.
const NO_ROOM: Case = Case {
    schema: "nodes 0\nindex t 1\n",
    lane: MIDDLE,
    told: &[
        ("ok @1 cold no", 1),
        ("ok @2 cold no", 1),
        ("ok @3 cold no", 1),
        ("found 2 @3 cold no", 128),
        ("found 2 @3 cold arena", 172),
    ],
    end: "changes t 3\n1 1 1 put a 1\n2 1 2 put b 2\n3 1 3 put c 3\nstats t hit 0 off 0 cold 303 short 0 part-busy 0 no-entry 0 block-busy 0 clock 0 unequal 0 by-clock 0 by-busy 0 by-moved 0 by-last 0 built 0 same 0 arena 172 raced 0 worn 0\nend\n",
};

/// A seek by two of three fields becomes a hit, and one by the first field alone is too short then.
const GROUP: Case = Case {
    schema: "index t 3\n",
    lane: &[
        ("put t a,x,1 p", 1),
        ("put t a,x,2 q", 1),
        ("put t a,y,1 r", 1),
        ("put t a,y,2 s", 1),
        ("seek t ge a,y", 200),
        ("seek t ge a", 1),
    ],
    told: &[
        ("ok @1 cold no", 1),
        ("ok @2 cold no", 1),
        ("ok @3 cold no", 1),
        ("ok @4 cold no", 1),
        ("found a,y,1 r @4 cold no", 127),
        ("found a,y,1 r @4 cold built", 1),
        ("found a,y,1 r @4 cold no", 2),
        ("found a,y,1 r @4 hit -", 70),
        ("found a,x,1 p @4 short no", 1),
    ],
    end: "changes t 4\n1 1 1 put a,x,1 p\n2 1 2 put a,x,2 q\n3 1 3 put a,y,1 r\n4 1 4 put a,y,2 s\nstats t hit 70 off 0 cold 134 short 1 part-busy 0 no-entry 0 block-busy 0 clock 0 unequal 0 by-clock 0 by-busy 0 by-moved 0 by-last 0 built 1 same 0 arena 0 raced 0 worn 0\nend\n",
};

static CASES: [Case; 3] = [HIT, NO_ROOM, GROUP];

/// Adds a line so many times, each time behind its number if it is numbered, which comes next to this
/// one.
fn add_times<R: Abort>(rt: &R, text: &mut String, before: u64, is_numbered: bool, line: &Times) {
    for place in 0..line.1 {
        if is_numbered {
            let number = before.wrapping_add(place).wrapping_add(1);
            write!(text, "{number} ").expect(rt, MEMORY);
        }
        write!(text, "{}\n", line.0).expect(rt, MEMORY);
    }
}

/// A text of these lines, which begins and ends so.
fn text_of<R: AllocGlobal + Abort>(
    rt: &R,
    start: &str,
    is_numbered: bool,
    lines: &[Times],
    end: &str,
) -> String {
    let mut text = String::from_str(rt.alloc(), start).expect(rt, MEMORY);
    let mut before: u64 = 0;
    for line in lines {
        add_times(rt, &mut text, before, is_numbered, line);
        before = before.wrapping_add(line.1);
    }
    text.push_str(end).expect(rt, MEMORY);
    text
}

/// Whether a lane is reported so.
fn is_reported_so<R: AllocGlobal + Abort + Threads + Wait + Sync>(rt: &R, case: &Case) -> bool {
    let lane = text_of(rt, "", false, case.lane, "");
    let report = text_of(rt, "ahi run\nlane 1\n", true, case.told, case.end);
    ends(
        rt,
        case.schema,
        &[lane.as_str()],
        Status::Done,
        report.as_str(),
    )
}

#[test]
fn searches_that_are_alike_become_hits(rt: HostRuntime) {
    for case in CASES.iter() {
        assert!(rt; is_reported_so(&rt, case));
    }
}

/// Three keys of which one bit of a fold can't tell one from another: they are one group, and the
/// hash leads to its first row, which isn't the one that is asked for.
static ALIKE: [Times; 4] = [
    ("put t a 1", 1),
    ("put t c 2", 1),
    ("put t e 3", 1),
    ("get t c", 300),
];

/// What is counted there, and the end.
const ALIKE_END: &str =
    "stats t hit 0 off 0 cold 158 short 0 part-busy 0 no-entry 0 block-busy 0 clock 0 unequal 145 by-clock 0 by-busy 0 by-moved 0 by-last 0 built 1 same 24 arena 0 raced 0 worn 0\nend\n";

#[test]
fn a_hash_that_errs_is_told_so(rt: HostRuntime) {
    let schema = "fold_bits 1\nindex t 1\n";
    let lane = text_of(&rt, "", false, &ALIKE, "");
    let report = done(&rt, schema, &[lane.as_str()]);
    assert!(rt; report.ends_with(ALIKE_END));
}

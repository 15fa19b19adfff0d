//! Worked merges.
use crate::files::{SCHEMA, lines_of};
use crate::setup::MEMORY;
use change_log::{LaneChange, LaneLog, merge};
use map_history::Line;
use std::process::Abort;

/// A lane's lines that take rows out: lines 4, 7 and 9.
const DELS: &[u8] = b"\n\n\ndel t k\n\n\ndel two k,k\n\ndel t k\n";

/// What a lane did: the place of its line among those, how far the changes that it made by that line
/// are apart, and how many they are. The first has the lane's number.
type Made = (usize, u64, u32);

/// The log of a lane that made every `step`th change by one line, so many of them.
fn log_of<'a, R: AllocGlobal + Abort>(
    rt: &R,
    lane: u32,
    line: &'a Line,
    step: u64,
    count: u32,
) -> LaneLog<'a> {
    let mut log = match LaneLog::reserve(rt.alloc(), count as usize) {
        Ok(log) => log,
        Err(_) => rt.panic(MEMORY),
    };
    let first = u64::from(lane);
    for i in 0..count {
        let number = first.wrapping_add(step.wrapping_mul(u64::from(i)));
        log.note(LaneChange { number, lane, line });
    }
    log
}

/// The logs of the lanes, which are numbered from 1.
fn logs_of<'a, R: AllocGlobal + Abort>(
    rt: &R,
    lanes: &[Made],
    lines: &'a [Line],
) -> Vec<LaneLog<'a>> {
    let mut logs = Vec::new(rt.alloc());
    let mut lane: u32 = 0;
    for (place, step, count) in lanes {
        let line = lines.get(*place).expect(rt, "a line");
        lane = lane.wrapping_add(1);
        logs.push(log_of(rt, lane, line, *step, *count))
            .expect(rt, MEMORY);
    }
    logs
}

/// The change at this place has this number, lane and line.
fn is_at(changes: &[LaneChange<'_>], place: usize, (number, lane, line): (u64, u32, u32)) -> bool {
    match changes.get(place) {
        Some(change) => change.number == number && change.lane == lane && change.line.line == line,
        None => false,
    }
}

/// Lane 1 made the first and the third change of index 0, lane 2 the second, and lane 3 the third
/// of index 1.
static THREE: [Made; 3] = [(0, 2, 2), (2, 0, 1), (1, 0, 1)];

fn are_by_number(first: &[LaneChange<'_>], second: &[LaneChange<'_>]) -> bool {
    first.len() == 3
        && is_at(first, 0, (1, 1, 4))
        && is_at(first, 1, (2, 2, 9))
        && is_at(first, 2, (3, 1, 4))
        && second.len() == 1
        && is_at(second, 0, (3, 3, 7))
}

/// Each of 64 lanes made every 64th change.
static MANY: [Made; 64] = [(0, 64, 15_625); 64];

/// The changes are so many, and are numbered from 1.
fn are_counted(changes: &[LaneChange<'_>], count: u64) -> bool {
    let mut number: u64 = 0;
    for change in changes {
        number = number.wrapping_add(1);
        if change.number != number {
            return false;
        }
    }
    number == count
}

/// One list is numbered from 1 to this count, and three lists are those of the three lanes.
fn are_right(lists: &[Vec<LaneChange<'_>>], count: u64) -> bool {
    match lists {
        [only] => are_counted(only, count),
        [first, second, third] => are_by_number(first, second) && third.is_empty(),
        _ => false,
    }
}

/// The logs' changes are right when they are merged for so many indexes.
fn are_merged<R: AllocGlobal + Abort>(
    rt: &R,
    logs: &[LaneLog<'_>],
    indexes: usize,
    count: u64,
) -> bool {
    let merged = merge(rt.alloc(), logs, indexes).expect(rt, MEMORY);
    merged.len() == indexes && are_right(&merged, count)
}

/// Those of these lanes are.
fn lanes_are_merged<R: AllocGlobal + Abort>(
    rt: &R,
    lanes: &[Made],
    indexes: usize,
    count: u64,
) -> bool {
    let lines = lines_of(rt, SCHEMA, DELS);
    are_merged(rt, &logs_of(rt, lanes, &lines), indexes, count)
}

/// Logs without changes, of which one has room for five.
fn empty_logs<R: AllocGlobal + Abort>(rt: &R) -> Vec<LaneLog<'static>> {
    let mut logs = Vec::new(rt.alloc());
    for room in [0, 5].iter() {
        let log = LaneLog::reserve(rt.alloc(), *room).expect(rt, MEMORY);
        logs.push(log).expect(rt, MEMORY);
    }
    logs
}

#[test]
fn changes_are_merged(rt: HostRuntime) {
    assert!(rt;
        lanes_are_merged(&rt, &THREE, 3, 4)
            && lanes_are_merged(&rt, &MANY, 1, 1_000_000)
            && are_merged(&rt, &empty_logs(&rt), 1, 0)
    );
}

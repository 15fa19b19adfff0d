//! Generated lines beside those of a plain generator, which is written from the format's own words.
use crate::setup::{MEMORY, has_fields};
use generated::generate_lane;
use map_history::{Line, Op};
use std::process::Abort;

const LINES: u32 = 60;

/// What each of eight numbers asks for.
static VERBS: [&str; 8] = ["put", "put", "put", "set", "del", "get", "get", "get"];

/// A number and a lane.
static PAIRS: [(u32, u32); 20] = [
    (0, 1),
    (0, 2),
    (0, 64),
    (1, 1),
    (1, 9),
    (2, 10),
    (7, 1),
    (7, 8),
    (8, 7),
    (63, 64),
    (64, 63),
    (99, 33),
    (1000, 11),
    (65_535, 12),
    (1_000_000, 50),
    (123_456_789, 19),
    (2_147_483_647, 20),
    (2_147_483_648, 40),
    (4_294_967_294, 3),
    (4_294_967_295, 64),
];

/// The operation asks this of the first index.
fn asks(op: &Op, verb: &str, key: &[u8], value: &[u8]) -> bool {
    match op {
        Op::Get { index: 0, key: own } => verb == "get" && has_fields(own, &[key]),
        Op::Del { index: 0, key: own } => verb == "del" && has_fields(own, &[key]),
        Op::Put {
            index: 0,
            key: own,
            value: bytes,
        } => verb == "put" && has_fields(own, &[key]) && bytes.as_bytes() == value,
        Op::Set {
            index: 0,
            key: own,
            value: bytes,
        } => verb == "set" && has_fields(own, &[key]) && bytes.as_bytes() == value,
        _ => false,
    }
}

/// The line is the one that these 31 bits give.
fn is_drawn<R: AllocGlobal + Abort>(rt: &R, line: &Line, lane: u32, bits: u128) -> bool {
    let choice = (bits % 8) as usize;
    let place = bits / 8 % 1000;
    let key = format!(in rt.alloc(); "k{lane:02}-{place:04}").expect(rt, MEMORY);
    let value = format!(in rt.alloc(); "v{}", line.line).expect(rt, MEMORY);
    asks(&line.op, VERBS[choice], key.as_bytes(), value.as_bytes())
}

/// All lines of a lane are those that a plain generator draws.
fn are_drawn<R: AllocGlobal + Abort>(rt: &R, number: u32, lane: u32) -> bool {
    let made = generate_lane(rt.alloc(), number, lane, LINES).expect(rt, MEMORY);
    let mut state = u128::from(number).wrapping_add(u128::from(lane));
    let mut count = 0_u32;
    let mut same = true;
    for line in &made {
        state = state
            .wrapping_mul(6_364_136_223_846_793_005)
            .wrapping_add(1_442_695_040_888_963_407)
            % 18_446_744_073_709_551_616;
        count = count.wrapping_add(1);
        same = same && line.line == count && is_drawn(rt, line, lane, state / 8_589_934_592);
    }
    same && count == LINES
}

#[test]
fn generated_lines_are_those_of_a_plain_generator(rt: HostRuntime) {
    assert!(rt;
        PAIRS
            .iter()
            .all(|&(number, lane)| are_drawn(&rt, number, lane))
    );
}

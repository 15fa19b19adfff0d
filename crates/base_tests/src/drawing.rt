//! The text of a drawn lane.
use crate::setup::MEMORY;
use report_judge::draw;
use std::process::Abort;

/// A verb, the mode behind the index where it seeks, and what stands before the number of a value
/// where it has one. The last says nothing.
static VERBS: [(&str, &str, &str); 12] = [
    ("get", "", ""),
    ("get", "", ""),
    ("put", "", " v"),
    ("put", "", " v"),
    ("set", "", " v"),
    ("set", "", " v"),
    ("del", "", ""),
    ("seek", "ge ", ""),
    ("seek", "g ", ""),
    ("seek", "le ", ""),
    ("seek", "l ", ""),
    ("#", "", ""),
];

/// The indexes and keys of twelve rows, and first fields by which only seeks ask.
static KEYS: [(&str, &str); 14] = [
    ("t", "k0"),
    ("t", "k1"),
    ("t", "k2"),
    ("t", "k3"),
    ("t", "k4"),
    ("t", "k5"),
    ("two", "0,k0"),
    ("two", "0,k1"),
    ("two", "0,k2"),
    ("two", "1,k3"),
    ("two", "1,k4"),
    ("two", "1,k5"),
    ("two", "0"),
    ("two", "1"),
];

/// A drawn one of the first so many.
fn drawn_of<R: Abort, T: Copy + Drop>(rt: &R, state: &mut u64, list: &[T], count: u64) -> T {
    let place = draw(state).checked_rem(count).unwrap_or(0);
    *list.get(place as usize).expect(rt, "a row")
}

/// Adds the line of this number.
fn add_line<R: Abort>(rt: &R, text: &mut String, state: &mut u64, number: u64) {
    let (verb, mode, value) = drawn_of(rt, state, &VERBS, 12);
    let count = if mode.is_empty() { 12 } else { 14 };
    let (index, key) = drawn_of(rt, state, &KEYS, count);
    write!(text, "{verb} {index} {mode}{key}").expect(rt, MEMORY);
    let ended = if value.is_empty() {
        text.push('\n')
    } else {
        write!(text, "{value}{number}\n")
    };
    ended.expect(rt, MEMORY);
}

/// So many lines.
pub(crate) fn lane_text<R: AllocGlobal + Abort>(rt: &R, seed: u64, lines: u64) -> String {
    let mut state = seed;
    let mut text = String::new(rt.alloc());
    for before in 0..lines {
        add_line(rt, &mut text, &mut state, before.wrapping_add(1));
    }
    text
}

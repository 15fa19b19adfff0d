//! Lines over hostile bytes, as they stand in a lane. All is written here, and nothing by the
//! program's parsers or printing.
use crate::setup::MEMORY;
use report_judge::draw;
use std::process::Abort;

pub(crate) const SCHEMA: &str = "index a 1\nindex b 2\nindex c 4\n";

/// The bytes that fields and values are made of, as they are spelled.
pub(crate) type Spelling = [&'static str; 11];

/// As they are printed: the digits of escapes are in lower case.
pub(crate) static PRINTED: Spelling = [
    "%25", "%00", "%7e", "a", "%2c", "%20", "%0a", "%ff", "}", "!", "%7f",
];

/// With digits in upper case.
pub(crate) static UPPER: Spelling = [
    "%25", "%00", "%7E", "a", "%2C", "%20", "%0A", "%FF", "}", "!", "%7F",
];

/// As they are printed, but with a plain byte in the place of each percent sign.
pub(crate) static PLAIN: Spelling = [
    "$25", "$00", "$7e", "a", "$2c", "$20", "$0a", "$ff", "}", "!", "$7f",
];

/// Draws so many lines over so many keys an index, where some lines are spelled otherwise than the
/// others.
pub(crate) fn lane_text<R: AllocGlobal + Abort>(
    rt: &R,
    lines: u64,
    keys: u64,
    most: &Spelling,
    some: &Spelling,
) -> String {
    let mut state = 1;
    let mut text = String::new(rt.alloc());
    for _ in 0..lines {
        add_line(rt, &mut text, &mut state, keys, most, some);
    }
    text
}

/// Draws a line: a get, a put, a set or a del, an index, a key, a value, and how they are spelled.
fn add_line<R: Abort>(
    rt: &R,
    text: &mut String,
    state: &mut u64,
    keys: u64,
    most: &Spelling,
    some: &Spelling,
) {
    let act = draw(state) % 4;
    let index = draw(state) % 3;
    let key = draw(state).checked_rem(keys).unwrap_or(0);
    let value = draw(state) % 16;
    let spelling = if draw(state) % 2 == 1 { some } else { most };
    text.push_str(verb_of(act)).expect(rt, MEMORY);
    add_key(rt, text, spelling, index, key);
    if act == 1 || act == 2 {
        add_field(rt, text, spelling, " ", value);
    }
    text.push('\n').expect(rt, MEMORY);
}

fn verb_of(act: u64) -> &'static str {
    match act {
        0 => "get ",
        1 => "put ",
        2 => "set ",
        _ => "del ",
    }
}

/// Writes the index of this number, and the key of this number. Keys of more fields share some of
/// them, and some are alike once joined.
fn add_key<R: Abort>(rt: &R, text: &mut String, spelling: &Spelling, index: u64, key: u64) {
    match index {
        0 => add_field(rt, text, spelling, "a ", key),
        1 => add_pair(rt, text, spelling, "b ", key),
        _ => {
            add_pair(rt, text, spelling, "c ", key);
            add_pair(rt, text, spelling, ",", key);
        }
    }
}

/// Writes this and two fields of a key.
fn add_pair<R: Abort>(rt: &R, text: &mut String, spelling: &Spelling, before: &str, key: u64) {
    add_field(rt, text, spelling, before, key % 4);
    add_field(rt, text, spelling, ",", (key / 4).wrapping_mul(2));
}

/// Writes this and a field or a value by its number: none for 0, one byte for 1 to 4, two for 5 to 8.
fn add_field<R: Abort>(rt: &R, text: &mut String, spelling: &Spelling, before: &str, number: u64) {
    text.push_str(before).expect(rt, MEMORY);
    if number == 0 {
        return text.push('~').expect(rt, MEMORY);
    }
    for place in 0..number.wrapping_add(3) / 4 {
        let byte = number.wrapping_mul(place.wrapping_add(1)) % 11;
        let spelled = spelling.get(byte as usize).copied().unwrap_or("a");
        text.push_str(spelled).expect(rt, MEMORY);
    }
}

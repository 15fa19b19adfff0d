//! Lanes drawn by number, over keys that all lanes share, so that they get in each other's way.
use crate::setup::MEMORY;
use report_judge::draw;
use std::process::Abort;

/// A number below this one, or 0 below 0.
fn draw_below(state: &mut u64, most: u64) -> u64 {
    draw(state).checked_rem(most).unwrap_or(0)
}

/// The schema of so many indexes, `t0` first, with keys of 1 to 4 fields.
pub(crate) fn schema_text<R: AllocGlobal + Abort>(rt: &R, indexes: u64) -> String {
    let mut schema = String::new(rt.alloc());
    for index in 0..indexes {
        write!(schema, "index t{index} {}\n", index % 4 + 1).expect(rt, MEMORY);
    }
    schema
}

/// The lane of this number, counted from 1: so many lines over the first indexes of the schema and
/// the first so many keys of each. A few lines say nothing. Each value names its lane and line.
pub(crate) fn lane_text<R: AllocGlobal + Abort>(
    rt: &R,
    seed: u64,
    lane: u64,
    lines: u64,
    indexes: u64,
    keys: u64,
) -> String {
    let mut state = seed.wrapping_mul(1_000_003).wrapping_add(lane);
    let mut text = String::new(rt.alloc());
    for before in 0..lines {
        let index = draw_below(&mut state, indexes);
        let key = draw_below(&mut state, keys);
        let at = (lane, before.wrapping_add(1));
        add_line(rt, &mut text, &mut state, at, index, key);
    }
    text
}

/// Adds the line of such a lane at this place, about this key.
fn add_line<R: Abort>(
    rt: &R,
    text: &mut String,
    state: &mut u64,
    at: (u64, u64),
    index: u64,
    key: u64,
) {
    match draw_below(state, 40) {
        0 => text.push('\n').expect(rt, MEMORY),
        1 => text.push_str("# says nothing\n").expect(rt, MEMORY),
        10..16 => add_seek(rt, text, state, index, key),
        drawn => add_act(rt, text, drawn, at, index, key),
    }
}

/// Adds a line of another act, which was drawn.
fn add_act<R: Abort>(
    rt: &R,
    text: &mut String,
    drawn: u64,
    (lane, line): (u64, u64),
    index: u64,
    key: u64,
) {
    add_start(rt, text, verb_word(drawn), "", index, key, u64::MAX);
    let ended = match drawn {
        10..25 => write!(text, " v{lane}-{line}\n"),
        25..30 => write!(text, " w{line}-{lane}-{line}\n"),
        _ => text.push('\n'),
    };
    ended.expect(rt, MEMORY);
}

/// The verb that was drawn.
fn verb_word(drawn: u64) -> &'static str {
    match drawn {
        0..10 => "get",
        10..25 => "put",
        25..30 => "set",
        _ => "del",
    }
}

/// A lane of seeks: so many lines over the first four indexes of the schema and the first so many
/// keys of each. Half of them seek, and the others put rows with this value or take them out.
pub(crate) fn seek_lane_text<R: AllocGlobal + Abort>(
    rt: &R,
    seed: u64,
    lines: u64,
    keys: u64,
    value: &str,
) -> String {
    let mut state = seed;
    let mut text = String::new(rt.alloc());
    for _ in 0..lines {
        let index = draw_below(&mut state, 4);
        let key = draw_below(&mut state, keys);
        add_seek_or_change(rt, &mut text, &mut state, index, key, value);
    }
    text
}

/// Adds a line of such a lane.
fn add_seek_or_change<R: Abort>(
    rt: &R,
    text: &mut String,
    state: &mut u64,
    index: u64,
    key: u64,
    value: &str,
) {
    match draw_below(state, 4) {
        0 => {
            add_start(rt, text, "put", "", index, key, u64::MAX);
            write!(text, " {value}\n").expect(rt, MEMORY);
        }
        1 => {
            add_start(rt, text, "del", "", index, key, u64::MAX);
            text.push('\n').expect(rt, MEMORY);
        }
        _ => add_seek(rt, text, state, index, key),
    }
}

/// Adds a seek by a key, or by its first fields.
fn add_seek<R: Abort>(rt: &R, text: &mut String, state: &mut u64, index: u64, key: u64) {
    let mode = mode_word(draw_below(state, 4));
    let fields = draw_below(state, index % 4 + 1);
    add_start(rt, text, "seek", mode, index, key, fields.wrapping_sub(1));
    text.push('\n').expect(rt, MEMORY);
}

/// A mode's word, and the space behind it.
fn mode_word(number: u64) -> &'static str {
    match number {
        0 => "ge ",
        1 => "g ",
        2 => "le ",
        _ => "l ",
    }
}

/// Adds a verb, the index, a mode, and the key of the index by its number, or no more of its fields
/// than one and so many. Keys of two fields and more share their beginnings.
fn add_start<R: Abort>(
    rt: &R,
    text: &mut String,
    verb: &str,
    mode: &str,
    index: u64,
    key: u64,
    more: u64,
) {
    write!(text, "{verb} t{index} {mode}").expect(rt, MEMORY);
    let group = key / 4;
    for _ in 0..more.min(index % 4) {
        write!(text, "{group},").expect(rt, MEMORY);
    }
    let is_whole = more >= index % 4;
    let (letter, last) = if is_whole { ("k", key) } else { ("", group) };
    write!(text, "{letter}{last}").expect(rt, MEMORY);
}

/// Lanes 1 to this number.
pub(crate) fn lane_texts<R: AllocGlobal + Abort>(
    rt: &R,
    seed: u64,
    lanes: u64,
    lines: u64,
    indexes: u64,
    keys: u64,
) -> Vec<String> {
    let mut texts = Vec::new(rt.alloc());
    for before in 0..lanes {
        let lane = before.wrapping_add(1);
        texts
            .push(lane_text(rt, seed, lane, lines, indexes, keys))
            .expect(rt, MEMORY);
    }
    texts
}

/// The texts as slices.
pub(crate) fn slices_of<'a, R: AllocGlobal + Abort>(rt: &R, texts: &'a [String]) -> Vec<&'a str> {
    let mut slices = Vec::new(rt.alloc());
    for text in texts {
        slices.push(text.as_str()).expect(rt, MEMORY);
    }
    slices
}

//! What a schema and its lanes ask.
use crate::acts::{Act, act_of};
use crate::judging::Lie;
use crate::keys::{count_fields, is_plain};
use crate::words::{add, first_word, named_number};
use std::alloc::Global;

/// An index: its name, and how many fields its keys have.
#[derive(Clone, Copy)]
pub struct Index<'a> {
    pub name: &'a str,
    pub fields: u64,
}

/// A line that says something, by its number in its file. The key of a seek is its tuple, and only
/// a put or a set has a value.
#[derive(Clone, Copy)]
pub struct Line<'a> {
    pub number: u64,
    pub index: usize,
    pub act: Act,
    pub key: &'a str,
    pub value: &'a str,
}

/// The indexes of a schema, in their order. A line that can't be read is told, where no lie was told
/// before.
pub fn read_schema<'a>(
    alloc: Global,
    judged: &mut Result<(), Lie>,
    text: &'a str,
) -> Vec<Index<'a>> {
    let mut indexes = Vec::new(alloc);
    let mut line: u64 = 0;
    for said in text.split('\n') {
        line = line.wrapping_add(1);
        if says_something(said) {
            let lie = Lie::Asked { file: 0, line };
            add(judged, &mut indexes, index_of(said), lie);
        }
    }
    indexes
}

/// The lines of each lane that say something. A line that can't be read is told in the same way.
pub fn read_lanes<'a>(
    alloc: Global,
    judged: &mut Result<(), Lie>,
    indexes: &[Index<'_>],
    lanes: &[&'a str],
) -> Vec<Vec<Line<'a>>> {
    let mut asked = Vec::new(alloc);
    let mut file: usize = 0;
    for text in lanes {
        file = file.wrapping_add(1);
        let lines = read_lane(alloc, judged, indexes, file, text);
        add(judged, &mut asked, Some(lines), Lie::NoMemory);
    }
    asked
}

/// Those of one lane, which has this file.
fn read_lane<'a>(
    alloc: Global,
    judged: &mut Result<(), Lie>,
    indexes: &[Index<'_>],
    file: usize,
    text: &'a str,
) -> Vec<Line<'a>> {
    let mut lines = Vec::new(alloc);
    let mut line: u64 = 0;
    for said in text.split('\n') {
        line = line.wrapping_add(1);
        if says_something(said) {
            let lie = Lie::Asked { file, line };
            add(judged, &mut lines, line_of(indexes, line, said), lie);
        }
    }
    lines
}

fn says_something(line: &str) -> bool {
    !line.is_empty() && !line.starts_with('#')
}

fn index_of<'a>(line: &'a str) -> Option<Index<'a>> {
    match named_number("index ", line) {
        Some((name, fields)) => Some(Index { name, fields }),
        None => None,
    }
}

/// What a line asks that says something.
fn line_of<'a>(indexes: &[Index<'_>], number: u64, said: &'a str) -> Option<Line<'a>> {
    let (verb, rest) = first_word(said);
    let (name, words) = first_word(rest);
    let (first, second) = first_word(words);
    let Some(act) = act_of(verb, first) else {
        return None;
    };
    let Some((index, fields)) = index_named(indexes, name) else {
        return None;
    };
    let (key, value) = match act {
        Act::Get | Act::Del => (words, ""),
        Act::Put | Act::Set => (first, second),
        Act::Seek(_) => (second, ""),
    };
    let line = Line {
        number,
        index,
        act,
        key,
        value,
    };
    fits(&line, fields).then_some(line)
}

/// The place of the index of this name, and how many fields its keys have.
fn index_named(indexes: &[Index<'_>], name: &str) -> Option<(usize, u64)> {
    for (place, index) in indexes.iter().enumerate() {
        if index.name == name {
            return Some((place, index.fields));
        }
    }
    None
}

/// Whether a line may be asked where keys have this many fields.
fn fits(line: &Line<'_>, fields: u64) -> bool {
    let Some(count) = count_fields(line.key) else {
        return false;
    };
    match line.act {
        Act::Put | Act::Set => count == fields && is_plain(line.value),
        Act::Seek(_) => count <= fields,
        Act::Get | Act::Del => count == fields,
    }
}

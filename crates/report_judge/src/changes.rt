//! The lists of changes, one of each index.
use crate::acts::{Act, act_of};
use crate::asked::Index;
use crate::words::{Reader, count_words, first_word, named_number, number_of};

/// A change: its index, its number in the list, the lane and the line that it names, and what it does.
/// Only a put or a set has a value.
#[derive(Clone, Copy)]
pub(crate) struct Change<'a> {
    pub(crate) index: usize,
    pub(crate) point: u64,
    pub(crate) lane: u64,
    pub(crate) line: u64,
    pub(crate) act: Act,
    pub(crate) key: &'a str,
    pub(crate) value: &'a str,
    /// Whether an answer `ok` at its point is known, to a line that asks it.
    pub(crate) is_asked: bool,
}

/// The list of an index: from where to where its changes stand among those of all, and the lane and
/// the point of the answer that was judged last.
#[derive(Clone, Copy)]
pub(crate) struct List {
    pub(crate) start: usize,
    pub(crate) end: usize,
    pub(crate) lane: usize,
    pub(crate) point: u64,
}

/// Adds the list of each index, and its changes behind those of the others.
pub(crate) fn read_lists<'a>(
    reader: &mut Reader<'a>,
    indexes: &[Index<'_>],
    lists: &mut Vec<List>,
    changes: &mut Vec<Change<'a>>,
) {
    for index in indexes {
        let start = changes.len();
        read_changes(reader, lists.len(), index.name, changes);
        let list = List {
            start,
            end: changes.len(),
            lane: 0,
            point: 0,
        };
        reader.add(lists, Some(list));
    }
}

/// Adds the changes of the index at this place and of this name, up to the first lie.
fn read_changes<'a>(
    reader: &mut Reader<'a>,
    index: usize,
    name: &str,
    changes: &mut Vec<Change<'a>>,
) {
    for before in 0..read_count(reader, name) {
        let change = change_of(index, before.wrapping_add(1), reader.take_line());
        reader.add(changes, change);
        if reader.judged().is_err() {
            break;
        }
    }
}

/// How many changes the next line says that the index of this name has. No name has a space.
fn read_count(reader: &mut Reader<'_>, name: &str) -> u64 {
    let (said, count) = named_number("changes ", reader.take_line()).unwrap_or((" ", 0));
    reader.expect(said == name);
    count
}

/// The change of this number that a line says: its number, a lane and a line, the verb, the key, and
/// the value of a put or a set.
fn change_of<'a>(index: usize, point: u64, said: &'a str) -> Option<Change<'a>> {
    let (first, rest) = first_word(said);
    let (lane, rest) = first_word(rest);
    let (line, rest) = first_word(rest);
    let (verb, rest) = first_word(rest);
    let (key, value) = first_word(rest);
    match (number_of(lane), number_of(line), act_of(verb, "")) {
        (Some(lane), Some(line), Some(act)) => {
            let is_told = number_of(first) == Some(point) && count_words(said) == act.count_words();
            is_told.then_some(Change {
                index,
                point,
                lane,
                line,
                act,
                key,
                value,
                is_asked: false,
            })
        }
        _ => None,
    }
}

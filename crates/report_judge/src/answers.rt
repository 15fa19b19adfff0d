//! The answers of lanes, read line by line against what was asked.
use crate::asked::Line;
use crate::columns::may_stand;
use crate::words::{
    Reader, count_words, first_word, is_among, last_word, number_behind, number_of,
};

/// The answer to a line of a lane, which is counted from 1: what it is told, at which point, and the
/// two columns. The point of `log-full` is its count. Where the space is full nothing is told at 0.
#[derive(Clone, Copy)]
pub(crate) struct Answer<'a> {
    pub(crate) lane: usize,
    pub(crate) line: Line<'a>,
    pub(crate) told: &'a str,
    pub(crate) point: u64,
    pub(crate) how: &'a str,
    pub(crate) note: &'a str,
    /// Whether the change at its point is known to be what its line asks.
    pub(crate) is_made: bool,
}

/// Adds the answers of all lanes, one lane after the other.
pub(crate) fn read_answers<'a>(
    reader: &mut Reader<'a>,
    asked: &[Vec<Line<'a>>],
    answers: &mut Vec<Answer<'a>>,
) {
    let mut lane: usize = 0;
    for lines in asked {
        lane = lane.wrapping_add(1);
        let number = number_behind("lane ", reader.take_line());
        reader.expect(number == Some(lane as u64));
        read_lane(reader, lane, lines, answers);
    }
}

/// Adds those of one lane.
fn read_lane<'a>(
    reader: &mut Reader<'a>,
    lane: usize,
    lines: &[Line<'a>],
    answers: &mut Vec<Answer<'a>>,
) {
    for line in lines {
        let answer = answer_of(lane, line, reader.take_line());
        reader.add(answers, answer);
    }
}

/// The answer that a line of the report says to this one.
fn answer_of<'a>(lane: usize, line: &Line<'a>, said: &'a str) -> Option<Answer<'a>> {
    let (rest, note) = last_word(said);
    let (rest, how) = last_word(rest);
    let (number, words) = first_word(rest);
    let (told, last) = last_word(words);
    let point = if words == "space-full" {
        Some(0)
    } else {
        point_of(told, last)
    };
    let (Some(point), true) = (point, may_stand(how, note)) else {
        return None;
    };
    let answer = Answer {
        lane,
        line: *line,
        told,
        point,
        how,
        note,
        is_made: false,
    };
    (number_of(number) == Some(line.number)).then_some(answer)
}

/// The point that a word spells behind what is told: the count of `log-full` stands alone.
fn point_of(told: &str, word: &str) -> Option<u64> {
    if told == "log-full" {
        number_of(word)
    } else if has_point(told) {
        number_behind("@", word)
    } else {
        None
    }
}

/// Whether this may be told at a point: a value is found, or a key and a value.
fn has_point(told: &str) -> bool {
    is_among(told, &["ok", "absent", "duplicate"])
        || (told.starts_with("found ") && count_words(told) < 4)
}

//! The answers against the changes.
use crate::acts::Act;
use crate::answers::Answer;
use crate::changes::{Change, List};
use crate::history::row_asked;
use crate::judging::Lie;
use crate::words::first_word;

/// Notes of each answer `ok` and of the change at its point that they are of one another, if they are.
pub(crate) fn match_up(answers: &mut [Answer<'_>], changes: &mut [Change<'_>], lists: &[List]) {
    for answer in answers.iter_mut() {
        if let Some(change) = changes.get_mut(place_of(answer, lists)) {
            if makes(answer, change) {
                answer.is_made = true;
                change.is_asked = true;
            }
        }
    }
}

/// Where the change at the point of an answer stands, if there is one.
fn place_of(answer: &Answer<'_>, lists: &[List]) -> usize {
    match lists.get(answer.line.index) {
        Some(list) => list
            .start
            .wrapping_add(answer.point as usize)
            .wrapping_sub(1),
        None => usize::MAX,
    }
}

fn makes(answer: &Answer<'_>, change: &Change<'_>) -> bool {
    let line = &answer.line;
    answer.told == "ok"
        && answer.lane as u64 == change.lane
        && answer.point == change.point
        && line.number == change.line
        && line.index == change.index
        && line.act == change.act
        && line.key == change.key
        && line.value == change.value
}

/// Each change is what its line asks, and that line is told `ok` at the change's number.
pub(crate) fn check_changes(changes: &[Change<'_>]) -> Result<(), Lie> {
    for change in changes {
        if !change.is_asked {
            return Err(Lie::Unasked {
                index: change.index,
                change: change.point,
            });
        }
    }
    Ok(())
}

/// The most pages that a run takes: two for each index and each row that it writes, by its puts and
/// sets, and one for each lane.
pub(crate) fn pages_taken(lanes: usize, indexes: usize, changes: &[Change<'_>]) -> u64 {
    let mut rows = indexes as u64;
    for change in changes {
        if change.act.writes_row() {
            rows = rows.wrapping_add(1);
        }
    }
    rows.wrapping_mul(2).wrapping_add(lanes as u64)
}

/// What answers are judged by: the replayed lists, the most changes that one may have, and
/// whether the pages are few.
#[derive(Clone, Copy)]
pub(crate) struct Evidence<'r, 'a> {
    pub(crate) changes: &'r [Change<'a>],
    pub(crate) most_changes: u64,
    pub(crate) pages_are_few: bool,
}

impl<'r, 'a> Evidence<'r, 'a> {
    /// Checks the answers in their order. Each is one that its lane may be told.
    pub(crate) fn check_answers(
        &self,
        lists: &mut [List],
        answers: &[Answer<'_>],
    ) -> Result<(), Lie> {
        for answer in answers {
            let (lane, line) = (answer.lane, answer.line.number);
            let Some(list) = lists.get_mut(answer.line.index) else {
                continue;
            };
            if !rises(list, answer) {
                return Err(Lie::Back { lane, line });
            }
            if !self.is_true(list, answer) {
                return Err(Lie::Wrong { lane, line });
            }
        }
        Ok(())
    }

    /// Whether the answer is one to such a line, and that of the map at its point. That the space is
    /// full may come of a put or a set alone, and only where the pages are few.
    fn is_true(&self, list: &List, answer: &Answer<'_>) -> bool {
        let list = self.changes.get(list.start..list.end).unwrap_or(&[]);
        let (act, point) = (answer.line.act, answer.point);
        let row = row_asked(&answer.line, list, point);
        let changes = list.len() as u64;
        match answer.told {
            _ if point > changes => false,
            "ok" => answer.is_made,
            "" => self.pages_are_few && act.writes_row(),
            "log-full" => {
                point == changes && point == self.most_changes && act.is_allowed(row.is_some())
            }
            told => shows(told, act, row),
        }
    }
}

/// Whether what is told says of the row that is asked about what there is of it: its value where it is
/// found by a get, and its key and value where it is found by a seek.
fn shows(told: &str, act: Act, row: Option<(&str, &str)>) -> bool {
    let Some((key, value)) = row else {
        return told == "absent" && !matches!(act, Act::Put);
    };
    let found = told.strip_prefix("found ").unwrap_or("");
    let (first, second) = first_word(found);
    match act {
        Act::Put => told == "duplicate",
        Act::Get => found == value,
        Act::Seek(_) => first == key && second == value,
        Act::Set | Act::Del => false,
    }
}

/// Takes the point of an answer, and says whether it may stand after those of the lane before it.
/// That the space is full may stand anywhere.
fn rises(list: &mut List, answer: &Answer<'_>) -> bool {
    if answer.told.is_empty() {
        return true;
    }
    let before = if list.lane == answer.lane {
        list.point
    } else {
        0
    };
    list.lane = answer.lane;
    list.point = answer.point;
    before < answer.point || (before == answer.point && answer.told != "ok")
}

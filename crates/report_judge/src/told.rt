//! What a report tells, read line by line against what was asked, and judged.
use crate::answers::{Answer, read_answers};
use crate::asked::{Index, Line};
use crate::changes::{Change, List, read_lists};
use crate::columns::is_counted;
use crate::history::replay;
use crate::judging::{Lie, Limits};
use crate::verdict::{Evidence, check_changes, match_up, pages_taken};
use crate::words::Reader;
use std::alloc::Global;

/// The answers of the lanes, one lane after the other, the changes of one index after the other, and
/// the first lie that was found.
#[derive(Drop)]
pub(crate) struct Report<'a> {
    answers: Vec<Answer<'a>>,
    changes: Vec<Change<'a>>,
    lists: Vec<List>,
    judged: Result<(), Lie>,
}

impl<'a> Report<'a> {
    /// What a text tells.
    pub(crate) fn read(
        alloc: Global,
        mut reader: Reader<'a>,
        indexes: &[Index<'_>],
        asked: &[Vec<Line<'a>>],
    ) -> Report<'a> {
        let mut answers = Vec::new(alloc);
        let mut changes = Vec::new(alloc);
        let mut lists = Vec::new(alloc);
        reader.expect_line("ahi run");
        read_answers(&mut reader, asked, &mut answers);
        read_lists(&mut reader, indexes, &mut lists, &mut changes);
        read_end(&mut reader, indexes, &answers);
        Report {
            answers,
            changes,
            lists,
            judged: reader.judged(),
        }
    }

    /// Whether it is legal.
    pub(crate) fn judge(&mut self, limits: Limits, lanes: usize) -> Result<(), Lie> {
        match_up(&mut self.answers, &mut self.changes, &self.lists);
        let asked = check_changes(&self.changes);
        let replayed = replay(&mut self.changes);
        let taken = pages_taken(lanes, self.lists.len(), &self.changes);
        let evidence = Evidence {
            changes: &self.changes,
            most_changes: limits.changes,
            pages_are_few: limits.pages <= taken,
        };
        let answered = evidence.check_answers(&mut self.lists, &self.answers);
        self.judged.and(asked).and(replayed).and(answered)
    }
}

/// The lines that count the columns of the answers, one of each index, and the last line.
fn read_end(reader: &mut Reader<'_>, indexes: &[Index<'_>], answers: &[Answer<'_>]) {
    let mut place: usize = 0;
    for index in indexes {
        let line = reader.take_line();
        reader.expect(is_counted(line, index.name, place, answers));
        place = place.wrapping_add(1);
    }
    reader.expect_line("end");
    reader.expect_end();
}

//! Plain maps to which lanes are dealt, and what each line is told by them.
use crate::setup::MEMORY;
use crate::sought::sought;
use report_judge::{Act, Index, Line};
use std::collections::BTreeMap;
use std::process::Abort;

/// An index: its name, its rows, its changes as they are printed, and how many answers it gave.
#[derive(Drop)]
pub(crate) struct Table<'a> {
    pub(crate) name: &'a str,
    rows: BTreeMap<&'a str, &'a str>,
    pub(crate) list: String,
    pub(crate) count: u64,
    pub(crate) answers: u64,
}

/// An empty one of each index.
pub(crate) fn new_tables<'a, R: AllocGlobal + Abort>(
    rt: &R,
    indexes: &[Index<'a>],
) -> Vec<Table<'a>> {
    let mut tables = Vec::new(rt.alloc());
    for index in indexes {
        let table = Table {
            name: index.name,
            rows: BTreeMap::new(rt.alloc()),
            list: String::new(rt.alloc()),
            count: 0,
            answers: 0,
        };
        tables.push(table).expect(rt, MEMORY);
    }
    tables
}

/// Adds what a get is told of the value of its key.
fn add_value<R: Abort>(rt: &R, answers: &mut String, held: Option<&str>) {
    let added = match held {
        Some(value) => write!(answers, "found {value}"),
        None => answers.push_str("absent"),
    };
    added.expect(rt, MEMORY);
}

/// Adds what a seek is told of the row that it asks for.
fn add_row<R: Abort>(rt: &R, answers: &mut String, row: Option<(&str, &str)>) {
    let added = match row {
        Some((key, value)) => write!(answers, "found {key} {value}"),
        None => answers.push_str("absent"),
    };
    added.expect(rt, MEMORY);
}

impl<'a> Table<'a> {
    /// Does what the line of a lane asks, and adds its answer line.
    pub(crate) fn answer<R: Abort>(
        &mut self,
        rt: &R,
        lane: usize,
        line: &Line<'a>,
        answers: &mut String,
    ) {
        write!(answers, "{} ", line.number).expect(rt, MEMORY);
        match line.act {
            Act::Get => add_value(rt, answers, self.rows.get(line.key).copied()),
            Act::Seek(reach) => add_row(rt, answers, sought(&self.rows, reach, line.key)),
            _ => answers
                .push_str(self.change(rt, lane, line))
                .expect(rt, MEMORY),
        }
        write!(answers, " @{} cold no\n", self.count).expect(rt, MEMORY);
        self.answers = self.answers.wrapping_add(1);
    }

    /// Makes the change that the line asks for where the rows allow it, and gives what it is told.
    fn change<R: Abort>(&mut self, rt: &R, lane: usize, line: &Line<'a>) -> &'static str {
        let is_put = matches!(line.act, Act::Put);
        if self.rows.get(line.key).is_some() == is_put {
            return if is_put { "duplicate" } else { "absent" };
        }
        self.count = self.count.wrapping_add(1);
        write!(self.list, "{} {lane} {} ", self.count, line.number).expect(rt, MEMORY);
        match line.act {
            Act::Put => self.write(rt, "put", line.key, line.value),
            Act::Set => self.write(rt, "set", line.key, line.value),
            _ => self.remove(rt, line.key),
        }
        "ok"
    }

    /// Gives the key this value, and notes it with this verb.
    fn write<R: Abort>(&mut self, rt: &R, verb: &str, key: &'a str, value: &'a str) {
        let inserted: Result<_, _> = self.rows.insert(key, value);
        inserted.expect(rt, MEMORY);
        write!(self.list, "{verb} {key} {value}\n").expect(rt, MEMORY);
    }

    /// Takes the row of the key out, and notes it.
    fn remove<R: Abort>(&mut self, rt: &R, key: &str) {
        let _row = self.rows.remove(key);
        write!(self.list, "del {key}\n").expect(rt, MEMORY);
    }
}

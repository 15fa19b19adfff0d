//! Drawn lanes, read by the program's reader and answered by its plain maps: their reports are legal
//! by a naive reading of the same text.
use crate::drawing::lane_text;
use crate::files::lines_of;
use crate::setup::MEMORY;
use change_log::LaneChange;
use key_tuple::{Key, Value};
use map_history::{COUNTED, Counts, How, Line, Note, Op, Reply, RowBuf, Told, answer, make};
use report_judge::judge;
use report_text::{change, changes_head, lane_head, report_end, report_head, stats};
use std::collections::BTreeMap;
use std::process::Abort;

const SCHEMA: &str = "index t 1\nindex two 2\n";

/// An index: its name, its rows, its changes as they are printed, and how many answers it gave.
#[derive(Drop)]
struct Table {
    name: &'static str,
    rows: BTreeMap<Key, Value>,
    list: Vec<u8>,
    count: u64,
    answers: u64,
}

/// The two indexes, without rows.
fn two_tables<R: AllocGlobal + Abort>(rt: &R) -> Vec<Table> {
    let mut tables = Vec::new(rt.alloc());
    for name in ["t", "two"].iter() {
        let table = Table {
            name: *name,
            rows: BTreeMap::new(rt.alloc()),
            list: Vec::new(rt.alloc()),
            count: 0,
            answers: 0,
        };
        tables.push(table).expect(rt, MEMORY);
    }
    tables
}

/// Makes the change of a line, and notes it.
fn make_change<R: Abort>(rt: &R, table: &mut Table, line: &Line) {
    make(&mut table.rows, &line.op).expect(rt, MEMORY);
    table.count = table.count.wrapping_add(1);
    let noted = LaneChange {
        number: table.count,
        lane: 1,
        line,
    };
    change(&mut table.list, &noted).expect(rt, MEMORY);
}

/// Appends what the rows say to a line, and makes its change where they allow it.
fn answer_line<R: Abort>(
    rt: &R,
    table: &mut Table,
    out: &mut Vec<u8>,
    row: &mut RowBuf,
    line: &Line,
) {
    if let Op::Scan { .. } = &line.op {
        rt.panic("a scan")
    }
    let reply = answer(&table.rows, &line.op, row);
    if reply == Reply::Ok {
        make_change(rt, table, line);
    }
    let told = Told {
        reply,
        point: Some(table.count),
        how: How::Cold,
        note: Note::No,
    };
    let added = report_text::answer(out, line.line, &told, row, row.value(), &line.op);
    added.expect(rt, MEMORY);
    table.answers = table.answers.wrapping_add(1);
}

/// Appends the answers of a lane.
fn answer_lines<R: AllocGlobal + Abort>(
    rt: &R,
    tables: &mut [Table],
    out: &mut Vec<u8>,
    lines: &[Line],
) {
    let mut row = RowBuf::new(rt.alloc()).expect(rt, MEMORY);
    for line in lines {
        if let Some(table) = tables.get_mut(line.op.index() as usize) {
            answer_line(rt, table, out, &mut row, line);
        }
    }
}

/// The report of a lane.
fn report_of<R: AllocGlobal + Abort>(rt: &R, lines: &[Line]) -> Vec<u8> {
    let mut tables = two_tables(rt);
    let mut out = Vec::new(rt.alloc());
    report_head(&mut out).expect(rt, MEMORY);
    lane_head(&mut out, 1).expect(rt, MEMORY);
    answer_lines(rt, &mut tables, &mut out, lines);
    add_lists(rt, &mut out, &tables);
    out
}

/// The statistics of an index whose answers all say `cold no`.
fn cold_counts(table: &Table) -> Counts {
    let mut numbers = [0; COUNTED];
    numbers[2] = table.answers;
    Counts { numbers }
}

/// Appends the changes of each index, the statistics of both, and the end.
fn add_lists<R: Abort>(rt: &R, out: &mut Vec<u8>, tables: &[Table]) {
    for table in tables {
        changes_head(out, table.name, table.count).expect(rt, MEMORY);
        out.extend_from_slice(&table.list).expect(rt, MEMORY);
    }
    for table in tables {
        stats(out, table.name, &cold_counts(table)).expect(rt, MEMORY);
    }
    report_end(out).expect(rt, MEMORY);
}

/// Whether the report of a drawn lane is legal.
fn is_legal<R: AllocGlobal + Abort>(rt: &R, seed: u64) -> bool {
    let text = lane_text(rt, seed, 600);
    let report = report_of(rt, &lines_of(rt, SCHEMA.as_bytes(), text.as_bytes()));
    judge(rt.alloc(), SCHEMA, &[text.as_str()], &report).is_ok()
}

#[test]
fn drawn_lanes_are_read_and_answered(rt: HostRuntime) {
    assert!(rt; is_legal(&rt, 1) && is_legal(&rt, 2));
}

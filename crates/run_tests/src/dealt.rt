//! Lanes dealt by chance to plain maps, a line at a time: such a run's report is legal.
use crate::drawing::{lane_texts, schema_text, slices_of};
use crate::setup::{MEMORY, is_legal};
use crate::tables::{Table, new_tables};
use report_judge::{BEFORE_COLD, BEHIND_COLD, Index, LIMITS, Line, draw, read_lanes, read_schema};
use std::process::Abort;
use std::slice::Iter;

/// A lane: the lines that it hasn't worked yet, and what it was told.
#[derive(Drop)]
struct Lane<'l, 'a> {
    left: Iter<'l, Line<'a>>,
    answers: String,
}

#[derive(Drop)]
struct Deal<'l, 'a> {
    tables: Vec<Table<'a>>,
    lanes: Vec<Lane<'l, 'a>>,
}

impl<'l, 'a> Deal<'l, 'a> {
    /// Works the next line of the lane at this place, and says whether there was one.
    fn step<R: Abort>(&mut self, rt: &R, place: usize) -> bool {
        let Some(lane) = self.lanes.get_mut(place) else {
            return false;
        };
        let Some(line) = lane.left.next() else {
            return false;
        };
        let Some(table) = self.tables.get_mut(line.index) else {
            return false;
        };
        table.answer(rt, place.wrapping_add(1), line, &mut lane.answers);
        true
    }

    /// Works so many lines, each time one of a lane that is drawn.
    fn work<R: Abort>(&mut self, rt: &R, lines: usize, seed: u64) {
        let mut left = lines;
        let mut state = seed;
        for _ in 0..u64::MAX {
            if left == 0 {
                break;
            }
            let drawn = draw(&mut state) as usize;
            let place = drawn.checked_rem(self.lanes.len()).unwrap_or(0);
            if self.step(rt, place) {
                left = left.wrapping_sub(1);
            }
        }
    }
}

/// How many lines the lanes have.
fn count_lines(asked: &[Vec<Line<'_>>]) -> usize {
    let mut count: usize = 0;
    for lines in asked {
        count = count.wrapping_add(lines.len());
    }
    count
}

fn new_lanes<'l, 'a, R: AllocGlobal + Abort>(
    rt: &R,
    asked: &'l [Vec<Line<'a>>],
) -> Vec<Lane<'l, 'a>> {
    let mut lanes = Vec::new(rt.alloc());
    for lines in asked {
        let lane = Lane {
            left: lines.iter(),
            answers: String::new(rt.alloc()),
        };
        lanes.push(lane).expect(rt, MEMORY);
    }
    lanes
}

fn add_answers<R: Abort>(rt: &R, text: &mut String, lanes: &[Lane<'_, '_>]) {
    let mut number: u64 = 0;
    for lane in lanes {
        number = number.wrapping_add(1);
        write!(text, "lane {number}\n{}", lane.answers).expect(rt, MEMORY);
    }
}

fn add_lists<R: Abort>(rt: &R, text: &mut String, tables: &[Table<'_>]) {
    for table in tables {
        let (name, count) = (table.name, table.count);
        write!(text, "changes {name} {count}\n{}", table.list).expect(rt, MEMORY);
    }
}

fn add_statistics<R: Abort>(rt: &R, text: &mut String, tables: &[Table<'_>]) {
    for table in tables {
        let (name, answers) = (table.name, table.answers);
        write!(text, "stats {name} {BEFORE_COLD} {answers} {BEHIND_COLD}\n").expect(rt, MEMORY);
    }
}

/// The report of lanes that are worked.
fn report_of<R: AllocGlobal + Abort>(rt: &R, deal: &Deal<'_, '_>) -> String {
    let mut text = String::from_str(rt.alloc(), "ahi run\n").expect(rt, MEMORY);
    add_answers(rt, &mut text, &deal.lanes);
    add_lists(rt, &mut text, &deal.tables);
    add_statistics(rt, &mut text, &deal.tables);
    text.push_str("end\n").expect(rt, MEMORY);
    text
}

/// The report of a run of these lanes' lines, whose order the seed draws.
fn deal_out<'l, 'a, R: AllocGlobal + Abort>(
    rt: &R,
    indexes: &[Index<'a>],
    asked: &'l [Vec<Line<'a>>],
    seed: u64,
) -> String {
    let tables = new_tables(rt, indexes);
    let lanes = new_lanes(rt, asked);
    let mut deal = Deal { tables, lanes };
    deal.work(rt, count_lines(asked), seed);
    report_of(rt, &deal)
}

/// The same of the lanes' texts.
fn dealt_report<'a, R: AllocGlobal + Abort>(
    rt: &R,
    schema: &'a str,
    lanes: &[&'a str],
    seed: u64,
) -> String {
    let mut judged = Ok(());
    let indexes = read_schema(rt.alloc(), &mut judged, schema);
    let asked = read_lanes(rt.alloc(), &mut judged, &indexes, lanes);
    assert!(rt; judged.is_ok());
    deal_out(rt, &indexes, &asked, seed)
}

/// Whether a run of drawn lanes whose order the seed draws is legal.
fn is_dealt_legally<R: AllocGlobal + Abort>(rt: &R, seed: u64) -> bool {
    let schema = schema_text(rt, 3);
    let texts = lane_texts(rt, 5, 8, 500, 3, 6);
    let lanes = slices_of(rt, &texts);
    let report = dealt_report(rt, schema.as_str(), &lanes, seed);
    is_legal(rt.alloc(), LIMITS, schema.as_str(), &lanes, report.as_str())
}

#[test]
fn dealt_lanes_are_legal(rt: HostRuntime) {
    for seed in 0..3 {
        assert!(rt; is_dealt_legally(&rt, seed));
    }
}

//! A worked report, byte for byte.
use crate::refusals::strings;
use change_log::LaneChange;
use io_port::MemorySink;
use map_history::{Counts, How, Line, Note, Op, Reply, RowBuf, Told};
use report_print::{Halt, put_report};
use report_text::Texts;
use sample_rows::{key_of, value_of};
use std::process::Abort;

/// Three lines: the number of each, the key, and the value that it puts or none where it takes the
/// row away.
static LINES: [(u32, &[u8], Option<&[u8]>); 3] = [
    (1, b"a", Some(b"x")),
    (2, b"a", None),
    (3, b"b", Some(b"y")),
];

/// The number of a change, the lane that made it, and the place of its line among the three.
type Made = (u64, u32, usize);

/// The changes of two indexes: of the first, lane 2 made the first change and lane 1 the second.
static CHANGES: [&[Made]; 2] = [&[(1, 2, 0), (2, 1, 1)], &[(1, 1, 2)]];

/// The changes of two lanes.
static ANSWERS: [&[Made]; 2] = [&[(2, 1, 1), (1, 1, 2)], &[(1, 2, 0)]];

/// Such a line.
fn line_of<R: AllocGlobal + Abort>(rt: &R, line: u32, field: &[u8], bytes: Option<&[u8]>) -> Line {
    let key = key_of(rt.alloc(), field).expect(rt, "a key");
    let index = 0;
    let Some(bytes) = bytes else {
        let op = Op::Del { index, key };
        return Line { line, op };
    };
    let value = value_of(rt.alloc(), bytes).expect(rt, "a value");
    let op = Op::Put { index, key, value };
    Line { line, op }
}

fn three_lines<R: AllocGlobal + Abort>(rt: &R) -> Vec<Line> {
    let mut lines = Vec::new(rt.alloc());
    for (line, field, bytes) in LINES.iter() {
        lines
            .push(line_of(rt, *line, field, *bytes))
            .expect(rt, "memory for a line");
    }
    lines
}

/// Adds the answer to a line that made the change of this number.
fn add_answer<R: Abort>(rt: &R, answers: &mut Texts, row: &RowBuf, number: u64, line: &Line) {
    let told = Told {
        reply: Reply::Ok,
        point: Some(number),
        how: How::Cold,
        note: Note::No,
    };
    answers
        .add_answer(line.line, &told, row, &line.op)
        .expect(rt, "memory for an answer");
}

/// The answers of a lane that made these changes.
fn answers<R: AllocGlobal + Abort>(rt: &R, lines: &[Line], made: &[Made]) -> Texts {
    let row = RowBuf::new(rt.alloc()).expect(rt, "a row buffer");
    let mut answers = Texts::reserve(rt.alloc(), made.len()).expect(rt, "texts");
    for (number, _, place) in made {
        let line = lines.get(*place).expect(rt, "a line");
        add_answer(rt, &mut answers, &row, *number, line);
    }
    answers
}

fn both_answers<R: AllocGlobal + Abort>(rt: &R, lines: &[Line]) -> Vec<Texts> {
    let mut both = Vec::new(rt.alloc());
    for made in ANSWERS.iter() {
        both.push(answers(rt, lines, made))
            .expect(rt, "memory for answers");
    }
    both
}

/// The list of an index that has these changes.
fn list_of<'a, R: AllocGlobal + Abort>(
    rt: &R,
    lines: &'a [Line],
    made: &[Made],
) -> Vec<LaneChange<'a>> {
    let mut list = Vec::new(rt.alloc());
    for (number, lane, place) in made {
        let line = lines.get(*place).expect(rt, "a line");
        let (number, lane) = (*number, *lane);
        list.push(LaneChange { number, lane, line })
            .expect(rt, "memory for a change");
    }
    list
}

fn both_lists<'a, R: AllocGlobal + Abort>(rt: &R, lines: &'a [Line]) -> Vec<Vec<LaneChange<'a>>> {
    let mut both = Vec::new(rt.alloc());
    for made in CHANGES.iter() {
        both.push(list_of(rt, lines, made))
            .expect(rt, "memory for a list");
    }
    both
}

/// No word is counted of the first index, and of the second each as often as its place says.
fn counts() -> [Counts; 2] {
    let numbers = [
        1, 2, 3, 4, 5, 6, 7, 8, 9, 10, 11, 12, 13, 14, 15, 16, 17, 18,
    ];
    [Counts::none(), Counts { numbers }]
}

/// Puts the report of two lanes over two indexes.
fn put_two_lanes<R: AllocGlobal + Abort>(rt: &R, sink: &mut MemorySink) -> Result<(), Halt> {
    let lines = three_lines(rt);
    let answers = both_answers(rt, &lines);
    let lists = both_lists(rt, &lines);
    let names = strings(rt, &["t", "u"]);
    assert!(rt; lists.len() == 2 && names.len() == 2);
    put_report(rt.alloc(), sink, &names, &answers, &lists, &counts())
}

/// Putting it ends so, over a sink whose puts with these numbers fail, with these bytes in the sink.
fn is_put<R: AllocGlobal + Abort>(
    rt: &R,
    fail: &[u64],
    end: Result<(), Halt>,
    written: &[u8],
) -> bool {
    let fail = fail.to_vec(rt.alloc()).expect(rt, "numbers");
    let mut sink = MemorySink::with_room(rt.alloc(), 1000, fail).expect(rt, "a sink");
    put_two_lanes(rt, &mut sink) == end && sink.written() == written
}

const REPORT: &[u8] = b"ahi run\n\
    lane 1\n\
    2 ok @2 cold no\n\
    3 ok @1 cold no\n\
    lane 2\n\
    1 ok @1 cold no\n\
    changes t 2\n\
    1 2 1 put a x\n\
    2 1 2 del a\n\
    changes u 1\n\
    1 1 3 put b y\n\
    stats t hit 0 off 0 cold 0 short 0 part-busy 0 no-entry 0 block-busy 0 clock 0 unequal 0 \
    by-clock 0 by-busy 0 by-moved 0 by-last 0 built 0 same 0 arena 0 raced 0 worn 0\n\
    stats u hit 1 off 2 cold 3 short 4 part-busy 5 no-entry 6 block-busy 7 clock 8 unequal 9 \
    by-clock 10 by-busy 11 by-moved 12 by-last 13 built 14 same 15 arena 16 raced 17 worn 18\n\
    end\n";

/// What stands before the fourth put.
const THREE_LINES: &[u8] = b"ahi run\nlane 1\n2 ok @2 cold no\n";

#[test]
fn a_report_of_two_lanes_over_two_indexes_is_put_line_by_line(rt: HostRuntime) {
    assert!(rt; is_put(&rt, &[], Ok(()), REPORT));
    assert!(rt; is_put(&rt, &[3], Err(Halt::SinkFault), THREE_LINES));
}

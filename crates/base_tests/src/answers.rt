//! The lines of answers, byte for byte.
ghost use Rattle.std.specs.Prelude.{ℕ, List, ◌≡◌, true, IsSome};
ghost use Rattle.key_tuple.specs.Order.{FieldList};
ghost use Rattle.report_text.specs.Printed.{printed_answer};

use crate::files::{SCHEMA, lines_of};
use crate::setup::{MEMORY, tuple_of};
use map_history::{How, Note, Op, Reply, Told};
use report_text::answer;
use std::process::Abort;

/// What an operation is told.
macro_rules! told {
    ($reply:expr, $point:expr, $how:expr, $note:expr) => {
        Told {
            reply: $reply,
            point: $point,
            how: $how,
            note: $note,
        }
    };
}

/// Such an operation may be told this.
fn may_be_told(op: &Op, told: &Told) -> bool
    ensures { result ≡ true → (key : FieldList) (value : List ℕ)
        → IsSome (printed_answer op.now told.now key value) }
{
    match told.reply {
        Reply::LogFull(_) | Reply::SpaceFull => true,
        Reply::Absent | Reply::Ok | Reply::Duplicate => told.point.is_some(),
        Reply::Found => match op {
            Op::Get { .. } | Op::Seek { .. } => told.point.is_some(),
            _ => false,
        },
    }
}

/// The number of a line, a lane of one that asks the same, what it is told, the fields and the value
/// of a row, and how that is printed.
type Answer = (
    u32,
    &'static [u8],
    Told,
    &'static [&'static [u8]],
    &'static [u8],
    &'static [u8],
);

/// An answer of a descent before anything is learnt, without fields.
macro_rules! said {
    ($line:expr, $asked:expr, $reply:expr, $point:expr, $value:expr, $text:expr) => {
        (
            $line,
            $asked,
            told!($reply, Some($point), How::Cold, Note::No),
            &[],
            $value,
            $text,
        )
    };
}

/// Values, refusals, columns, and full lists and spaces.
static ANSWERS: [Answer; 11] = [
    said!(
        7,
        b"get t a",
        Reply::Found,
        3,
        b"\0 !%+,-}~\x7f\xaf\xff",
        b"7 found %00%20!%25+%2c-}%7e%7f%af%ff @3 cold no\n"
    ),
    said!(
        2,
        b"get t a",
        Reply::Found,
        1,
        b"x",
        b"2 found x @1 cold no\n"
    ),
    said!(
        8,
        b"get t a",
        Reply::Found,
        4,
        b"",
        b"8 found ~ @4 cold no\n"
    ),
    said!(
        4,
        b"get t a",
        Reply::Absent,
        2,
        b"",
        b"4 absent @2 cold no\n"
    ),
    said!(
        2,
        b"put t a x",
        Reply::Duplicate,
        1,
        b"",
        b"2 duplicate @1 cold no\n"
    ),
    said!(
        3,
        b"set t a x",
        Reply::Absent,
        0,
        b"",
        b"3 absent @0 cold no\n"
    ),
    said!(
        9,
        b"seek t l a",
        Reply::Absent,
        4,
        b"",
        b"9 absent @4 cold no\n"
    ),
    (
        3,
        b"set t a x",
        told!(Reply::Ok, Some(7), How::Hit, Note::Dash),
        &[],
        b"",
        b"3 ok @7 hit -\n",
    ),
    (
        205,
        b"seek two ge a",
        told!(Reply::Found, Some(4), How::Short, Note::No),
        &[b"a", b""],
        b"p",
        b"205 found a,~ p @4 short no\n",
    ),
    (
        2,
        b"put t a x",
        told!(Reply::LogFull(2), Some(2), How::Cold, Note::No),
        &[],
        b"",
        b"2 log-full 2 cold no\n",
    ),
    (
        2,
        b"put t a x",
        told!(Reply::SpaceFull, None, How::Cold, Note::No),
        &[],
        b"",
        b"2 space-full cold no\n",
    ),
];

/// The answer to a line of this number is printed so.
fn is_printed<R: AllocGlobal + Abort>(rt: &R, op: &Op, row: &Answer) -> bool {
    let (number, _, told, parts, value, text) = row;
    let fields = tuple_of(rt, parts);
    let mut out = Vec::new(rt.alloc());
    assert!(rt; may_be_told(op, told));
    answer(&mut out, *number, told, &fields, value, op).expect(rt, MEMORY);
    out.as_slice() == *text
}

#[test]
fn answers_are_printed(rt: HostRuntime) {
    for row in ANSWERS.iter() {
        let lines = lines_of(&rt, SCHEMA, row.1);
        let line = lines.first().expect(&rt, "a line");
        assert!(rt; is_printed(&rt, &line.op, row));
    }
}

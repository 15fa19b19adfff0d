//! The line of an answer.
ghost use Rattle.std.specs.Prelude.{◌≡◌, ◌++◌, IsSome, IfSome, OnOk, OnErr};
ghost use Rattle.map_history.specs.Spelling.{answer_text};
ghost use Rattle.report_text.specs.Printed.{printed_answer, reply_text};

use crate::line::put_line;
use crate::word::Word;
use key_tuple::{Fields, NoMemory};
use map_history::{Op, Reply, Told};

/// Appends the line of an answer: `told` is what the operation `op` on that line was told, and where
/// it is `Found`, `row` and `value` are the found row.
pub fn answer<'a, K: Fields>(
    out: &mut Vec<u8>,
    line: u32,
    told: &Told,
    row: &'a K,
    value: &'a [u8],
    op: &Op,
) -> Result<(), NoMemory>
    // The reply is one that such an operation can have, with a point but where space is full.
    requires { IsSome (printed_answer op.now told.now (K.fields_of row.now) value.now) }
    ensures ok { OnOk result (
        IfSome (printed_answer op.now told.now (K.fields_of row.now) value.now)
        (λ a. out.new.items ≡ out.old.items ++ answer_text line a)) }
    ensures err { OnErr result (out.new.items ≡ out.old.items) }
{
    let line = Word::Number(u64::from(line));
    let how = Word::Text(told.how.text());
    let note = Word::Text(told.note.text());
    let word = Word::Text(reply_text(told.reply));
    match (told.reply, told.point) {
        (Reply::LogFull(length), _) => {
            put_line::<K>(out, &[line, word, Word::Number(length), how, note])
        }
        (Reply::SpaceFull, _) => put_line::<K>(out, &[line, word, how, note]),
        (Reply::Found, Some(point)) => {
            let point = Word::Point(point);
            let value = Word::Value(value);
            match op {
                Op::Seek { .. } => {
                    put_line(out, &[line, word, Word::Key(row), value, point, how, note])
                }
                _ => put_line::<K>(out, &[line, word, value, point, how, note]),
            }
        }
        (_, Some(point)) => put_line::<K>(out, &[line, word, Word::Point(point), how, note]),
        (_, None) => unreachable!(),
    }
}

fn reply_text(reply: Reply) -> &'static str
    ensures { result.now ≡ reply_text reply }
{
    match reply {
        Reply::Found => "found",
        Reply::Absent => "absent",
        Reply::Ok => "ok",
        Reply::Duplicate => "duplicate",
        Reply::SpaceFull => "space-full",
        Reply::LogFull(_) => "log-full",
    }
}

//! The line of a change.
ghost use Rattle.std.specs.Prelude.{◌≡◌, [], ◌∷◌, ◌++◌, OnOk, OnErr, codes};
ghost use Rattle.change_log.specs.Log.{note_of};
ghost use Rattle.map_history.specs.Text.{field_text, key_text};
ghost use Rattle.report_text.specs.Printed.{noted_line, noted_text};

use crate::line::put_line;
use crate::word::Word;
use change_log::LaneChange;
use key_tuple::{Key, NoMemory, Value};
use map_history::Op;

/// Appends the line of a change: its number, the lane and the line that made it, and what it is.
/// Nothing is appended where its line asks for no change.
pub fn change(out: &mut Vec<u8>, change: &LaneChange<'_>) -> Result<(), NoMemory>
    ensures ok { OnOk result (out.new.items ≡ out.old.items ++ noted_text (note_of change.now)) }
    ensures err { OnErr result (out.new.items ≡ out.old.items) }
{
    match &change.line.op {
        Op::Put { key, value, .. } => put_row(out, change, "put", key, value),
        Op::Set { key, value, .. } => put_row(out, change, "set", key, value),
        Op::Del { key, .. } => put_del(out, change, key),
        Op::Get { .. } | Op::Seek { .. } | Op::Scan { .. } => Ok(()),
    }
}

/// Appends the line of a change that writes this row.
fn put_row<'a>(
    out: &mut Vec<u8>,
    change: &LaneChange<'_>,
    verb: &'a str,
    key: &'a Key,
    value: &'a Value,
) -> Result<(), NoMemory>
    ensures ok { OnOk result (out.new.items ≡ out.old.items ++ noted_line (note_of change.now)
        (verb.now ∷ key_text key.now.tuple ∷ field_text value.now ∷ [])) }
    ensures err { OnErr result (out.new.items ≡ out.old.items) }
{
    put_line(
        out,
        &[
            Word::Number(change.number),
            Word::Number(u64::from(change.lane)),
            Word::Number(u64::from(change.line.line)),
            Word::Text(verb),
            Word::Key(key),
            Word::Value(value.as_bytes()),
        ],
    )
}

/// Appends the line of a change that takes the row with this key out.
fn put_del(out: &mut Vec<u8>, change: &LaneChange<'_>, key: &Key) -> Result<(), NoMemory>
    ensures ok { OnOk result (out.new.items ≡ out.old.items ++ noted_line (note_of change.now)
        (codes "del" ∷ key_text key.now.tuple ∷ [])) }
    ensures err { OnErr result (out.new.items ≡ out.old.items) }
{
    put_line(
        out,
        &[
            Word::Number(change.number),
            Word::Number(u64::from(change.lane)),
            Word::Number(u64::from(change.line.line)),
            Word::Text("del"),
            Word::Key(key),
        ],
    )
}

//! The line of an answer that isn't in pieces.
ghost use Rattle.std.specs.Prelude.{◌≡◌, [], ◌∷◌, ◌++◌, ℕ, OnOk, option_map};
ghost use Rattle.std.specs.Fmt.{decimal};
ghost use Rattle.map_history.specs.LegalReport as form;
ghost use Rattle.map_history.specs.Operation.{operation_of};
ghost use Rattle.map_history.specs.Report.{Replied};
ghost use Rattle.map_history.specs.Spelling.{answer_text, column_words};
ghost use Rattle.map_history.specs.Text.{line_of, point_text};
ghost use Rattle.report_forms.specs.Answers.{answer_told, is_answer_to, is_small, row_answer, value_answer};
ghost use Rattle.report_reading.specs.Answers.{answer_seen, reply_seen, asks_change, asks_row, tells_answer, space_told, counted_told, found_told, word_reply};
ghost use Rattle.report_reading.specs.Columns.{columns_seen};
ghost use Rattle.report_reading.specs.Reads.{Tells, passing};
ghost use Rattle.script.specs.Pieces.{pieces_left};
ghost use Rattle.script.specs.Schema.{IsFieldCount};

use crate::columns::{ReadColumns, columns_in, may_stand};
use crate::digits::{find_digits, find_point};
use crate::kind::LineKind;
use crate::misread::Misread;
use crate::rows::{key_in, value_in};
use key_tuple::{Blank, Key, NoMemory, Value};
use map_history::Op;
use report_text::{Word, put_line};
use script::{Pieces, one_word, two_words};
use std::alloc::Global;

/// A value, a row, or a word.
#[derive(Drop)]
pub enum ReadReply {
    Value(Value),
    Row(Key, Value),
    Done,
    Absent,
    Duplicate,
}

/// What a line was answered, but in pieces.
#[derive(Drop)]
pub enum ReadAnswer {
    Replied {
        reply: ReadReply,
        point: u64,
        columns: ReadColumns,
    },
    LogFull {
        length: u64,
        columns: ReadColumns,
    },
    SpaceFull {
        columns: ReadColumns,
    },
}

impl ReadAnswer {
    /// Its columns.
    pub fn columns(&self) -> ReadColumns
        ensures { form.columns_of (answer_seen self.now) ≡ columns_seen result ∷ [] }
    {
        match self {
            ReadAnswer::Replied { columns, .. }
            | ReadAnswer::LogFull { columns, .. }
            | ReadAnswer::SpaceFull { columns } => *columns,
        }
    }
}

/// The line that answers an operation, with the number of the operation's own line.
#[derive(Drop)]
pub struct AnswerLine<'a> {
    pub fields: u8,
    pub number: u64,
    pub op: &'a Op,
}

impl<'a> LineKind for AnswerLine<'a> {
    ghost use Rattle.map_history.specs.Operation.{operation_of};
    ghost use Rattle.map_history.specs.Report.{Answer};
    ghost use Rattle.map_history.specs.Spelling.{answer_text};
    ghost use Rattle.report_forms.specs.Answers.{answer_told, is_answer_to};
    ghost use Rattle.report_reading.specs.Answers.{answer_seen};
    ghost use Rattle.script.specs.Schema.{IsFieldCount};

    type Read = ReadAnswer;

    ghost Seen = { Answer };

    ghost view = { answer_seen };

    ghost told = { answer_told };

    ghost passes = { λ kind. is_answer_to kind.fields (operation_of kind.op.now).ask };

    ghost text = { λ kind. answer_text kind.number };

    ghost can_tell = { λ kind. IsFieldCount kind.fields };

    fn tell(&self, alloc: Global, words: Pieces<'_>) -> Result<ReadAnswer, Misread> {
        tell_answer(alloc, self.fields, self.op, words)
    }

    fn put(&self, out: &mut Vec<u8>, read: &ReadAnswer) -> Result<(), NoMemory> {
        put_answer(out, self.number, read)
    }
}

fn tell_answer(alloc: Global, fields: u8, op: &Op, words: Pieces<'_>) -> Result<ReadAnswer, Misread>
    requires { IsFieldCount fields }
    ensures { Tells answer_seen result (passing (is_answer_to fields (operation_of op.now).ask)
        (answer_told (pieces_left words.entry))) }
{
    let answer = tell_any(alloc, fields, words)?;
    if !may_answer(op, &answer) {
        return Err(Misread::BadLine);
    }
    Ok(answer)
}

/// What the words tell, whatever was asked.
fn tell_any(alloc: Global, fields: u8, mut words: Pieces<'_>) -> Result<ReadAnswer, Misread>
    requires { IsFieldCount fields }
    ensures { Tells answer_seen result (passing (tells_answer fields)
        (answer_told (pieces_left words.entry))) }
{
    let Some(_number) = words.next() else {
        return Err(Misread::BadLine);
    };
    let Some(said) = words.next() else {
        return Err(Misread::BadLine);
    };
    if said == b"space-full".as_slice() {
        return tell_space_full(words);
    }
    if said == b"found".as_slice() {
        return tell_found(alloc, fields, words);
    }
    tell_counted(said, words)
}

fn tell_space_full(words: Pieces<'_>) -> Result<ReadAnswer, Misread>
    ensures { Tells answer_seen result (space_told (pieces_left words.entry)) }
{
    let Some((how, note)) = two_words(words) else {
        return Err(Misread::BadLine);
    };
    Ok(ReadAnswer::SpaceFull {
        columns: columns_in(how, note),
    })
}

/// The answer of a word, and of the number behind it.
fn tell_counted(said: &[u8], mut words: Pieces<'_>) -> Result<ReadAnswer, Misread>
    ensures { Tells answer_seen result (passing is_small
        (counted_told said.now (pieces_left words.entry))) }
{
    let Some(number) = words.next() else {
        return Err(Misread::BadLine);
    };
    let Some((how, note)) = two_words(words) else {
        return Err(Misread::BadLine);
    };
    let columns = columns_in(how, note);
    if said == b"log-full".as_slice() {
        return match find_digits(number) {
            Some(length) => Ok(ReadAnswer::LogFull { length, columns }),
            None => Err(Misread::BadLine),
        };
    }
    let Some(reply) = find_reply(said) else {
        return Err(Misread::BadLine);
    };
    match find_point(number) {
        Some(point) => Ok(ReadAnswer::Replied {
            reply,
            point,
            columns,
        }),
        None => Err(Misread::BadLine),
    }
}

/// The reply of a word alone.
fn find_reply(word: &[u8]) -> Option<ReadReply>
    ensures { option_map reply_seen result ≡ word_reply word.now }
{
    if word == b"ok".as_slice() {
        Some(ReadReply::Done)
    } else if word == b"absent".as_slice() {
        Some(ReadReply::Absent)
    } else if word == b"duplicate".as_slice() {
        Some(ReadReply::Duplicate)
    } else {
        None
    }
}

/// The answer of a value or a row, with its point and its columns.
fn tell_found(alloc: Global, fields: u8, mut words: Pieces<'_>) -> Result<ReadAnswer, Misread>
    requires { IsFieldCount fields }
    ensures { Tells answer_seen result (passing (tells_answer fields)
        (found_told (pieces_left words.entry))) }
{
    let Some(first) = words.next() else {
        return Err(Misread::BadLine);
    };
    let Some(second) = words.next() else {
        return Err(Misread::BadLine);
    };
    let Some(third) = words.next() else {
        return Err(Misread::BadLine);
    };
    if let Some(fourth) = one_word(words) {
        return tell_value(alloc, first, second, columns_in(third, fourth));
    }
    let Some((fourth, fifth)) = two_words(words) else {
        return Err(Misread::BadLine);
    };
    tell_row(
        alloc,
        fields,
        first,
        second,
        third,
        columns_in(fourth, fifth),
    )
}

fn tell_value(
    alloc: Global,
    value: &[u8],
    point: &[u8],
    columns: ReadColumns,
) -> Result<ReadAnswer, Misread>
    ensures { (fields : ℕ) → Tells answer_seen result (passing (tells_answer fields)
        (value_answer value.now point.now (columns_seen columns))) }
{
    let Some(point) = find_point(point) else {
        return Err(Misread::BadLine);
    };
    let value = value_in(alloc, value)?;
    Ok(ReadAnswer::Replied {
        reply: ReadReply::Value(value),
        point,
        columns,
    })
}

fn tell_row(
    alloc: Global,
    fields: u8,
    key: &[u8],
    value: &[u8],
    point: &[u8],
    columns: ReadColumns,
) -> Result<ReadAnswer, Misread>
    requires { IsFieldCount fields }
    ensures { Tells answer_seen result (passing (tells_answer fields)
        (row_answer key.now value.now point.now (columns_seen columns))) }
{
    let Some(point) = find_point(point) else {
        return Err(Misread::BadLine);
    };
    let key = key_in(alloc, fields, key)?;
    let value = value_in(alloc, value)?;
    Ok(ReadAnswer::Replied {
        reply: ReadReply::Row(key, value),
        point,
        columns,
    })
}

/// An operation may have such an answer.
fn may_answer(op: &Op, answer: &ReadAnswer) -> bool
    ensures { result ≡ form.has_form (operation_of op.now).ask (answer_seen answer.now) }
{
    match answer {
        ReadAnswer::Replied { reply, columns, .. } => may_stand(*columns) && may_reply(op, reply),
        ReadAnswer::LogFull { columns, .. } => asks_change(op) && may_stand(*columns),
        ReadAnswer::SpaceFull { columns } => asks_row(op) && may_stand(*columns),
    }
}

fn asks_change(op: &Op) -> bool
    ensures { result ≡ asks_change (operation_of op.now).ask }
{
    matches!(op, Op::Put { .. } | Op::Set { .. } | Op::Del { .. })
}

fn asks_row(op: &Op) -> bool
    ensures { result ≡ asks_row (operation_of op.now).ask }
{
    matches!(op, Op::Put { .. } | Op::Set { .. })
}

fn may_reply(op: &Op, reply: &ReadReply) -> bool
    ensures { result ≡ form.may_reply (operation_of op.now).ask (reply_seen reply.now) }
{
    match op {
        Op::Get { .. } => matches!(reply, ReadReply::Value(_) | ReadReply::Absent),
        Op::Put { .. } => matches!(reply, ReadReply::Done | ReadReply::Duplicate),
        Op::Set { .. } | Op::Del { .. } => matches!(reply, ReadReply::Done | ReadReply::Absent),
        Op::Seek { .. } => matches!(reply, ReadReply::Row(_, _) | ReadReply::Absent),
        Op::Scan { .. } => false,
    }
}

fn put_answer(out: &mut Vec<u8>, number: u64, read: &ReadAnswer) -> Result<(), NoMemory>
    ensures { OnOk result (out.new.items
        ≡ out.old.items ++ answer_text number (answer_seen read.now)) }
{
    match read {
        ReadAnswer::Replied {
            reply,
            point,
            columns,
        } => put_reply(out, number, reply, *point, *columns),
        ReadAnswer::LogFull { length, columns } => put_line::<Blank>(
            out,
            &[
                Word::Number(number),
                Word::Text("log-full"),
                Word::Number(*length),
                Word::Text(columns.how.text()),
                Word::Text(columns.note.text()),
            ],
        ),
        ReadAnswer::SpaceFull { columns } => put_line::<Blank>(
            out,
            &[
                Word::Number(number),
                Word::Text("space-full"),
                Word::Text(columns.how.text()),
                Word::Text(columns.note.text()),
            ],
        ),
    }
}

fn put_reply(
    out: &mut Vec<u8>,
    number: u64,
    reply: &ReadReply,
    point: u64,
    columns: ReadColumns,
) -> Result<(), NoMemory>
    ensures { OnOk result (out.new.items ≡ out.old.items
        ++ answer_text number (Replied (reply_seen reply.now) point (columns_seen columns))) }
{
    match reply {
        ReadReply::Value(value) => put_line::<Blank>(
            out,
            &[
                Word::Number(number),
                Word::Text("found"),
                Word::Value(value.as_bytes()),
                Word::Point(point),
                Word::Text(columns.how.text()),
                Word::Text(columns.note.text()),
            ],
        ),
        ReadReply::Row(key, value) => put_line(
            out,
            &[
                Word::Number(number),
                Word::Text("found"),
                Word::Key(key),
                Word::Value(value.as_bytes()),
                Word::Point(point),
                Word::Text(columns.how.text()),
                Word::Text(columns.note.text()),
            ],
        ),
        ReadReply::Done => put_word(out, number, "ok", point, columns),
        ReadReply::Absent => put_word(out, number, "absent", point, columns),
        ReadReply::Duplicate => put_word(out, number, "duplicate", point, columns),
    }
}

/// The line of a reply that is a word alone.
fn put_word(
    out: &mut Vec<u8>,
    number: u64,
    word: &str,
    point: u64,
    columns: ReadColumns,
) -> Result<(), NoMemory>
    ensures { OnOk result (out.new.items ≡ out.old.items ++ line_of (decimal number ∷ word.now
        ∷ point_text point ∷ column_words (columns_seen columns))) }
{
    put_line::<Blank>(
        out,
        &[
            Word::Number(number),
            Word::Text(word),
            Word::Point(point),
            Word::Text(columns.how.text()),
            Word::Text(columns.note.text()),
        ],
    )
}

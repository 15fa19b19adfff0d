//! The line of a change of an index.
ghost use Rattle.std.specs.Prelude.{◌≡◌, ◌++◌, OnOk};
ghost use Rattle.map_history.specs.Operation.{change_of};
ghost use Rattle.map_history.specs.Spelling.{change_text};
ghost use Rattle.report_forms.specs.Entries.{change_told, entry_told, is_entry};
ghost use Rattle.report_forms.specs.Limits.{is_key, changes_row};
ghost use Rattle.report_reading.specs.Entries.{entry_seen, key_told};
ghost use Rattle.report_reading.specs.Reads.{Tells, passing};
ghost use Rattle.script.specs.Pieces.{pieces_left};
ghost use Rattle.script.specs.Schema.{IsFieldCount};

use crate::digits::find_digits;
use crate::kind::LineKind;
use crate::misread::Misread;
use crate::rows::{key_in, row_in};
use key_tuple::{Key, NoMemory};
use map_history::Change;
use report_text::{Word, put_line};
use script::{Pieces, one_word};
use std::alloc::Global;

/// A change of an index, with the lane and the line that made it.
#[derive(Drop)]
pub struct ReadEntry {
    pub lane: u64,
    pub line: u64,
    pub change: Change,
}

/// The line of the entry with this number, from 1, of an index whose keys have so many fields.
#[derive(Drop)]
pub struct EntryLine {
    pub fields: u8,
    pub number: u64,
}

impl LineKind for EntryLine {
    ghost use Rattle.map_history.specs.Report.{ChangeLine};
    ghost use Rattle.map_history.specs.Spelling.{change_text};
    ghost use Rattle.report_forms.specs.Entries.{entry_told, is_entry};
    ghost use Rattle.report_reading.specs.Entries.{entry_seen, key_told};
    ghost use Rattle.script.specs.Schema.{IsFieldCount};

    type Read = ReadEntry;

    ghost Seen = { ChangeLine };

    ghost view = { entry_seen };

    ghost told = { entry_told };

    ghost passes = { λ kind. is_entry kind.fields };

    ghost text = { λ kind. change_text kind.number };

    ghost can_tell = { λ kind. IsFieldCount kind.fields };

    fn tell(&self, alloc: Global, words: Pieces<'_>) -> Result<ReadEntry, Misread> {
        tell_entry(alloc, self.fields, words)
    }

    fn put(&self, out: &mut Vec<u8>, read: &ReadEntry) -> Result<(), NoMemory> {
        put_entry(out, self.number, read)
    }
}

fn tell_entry(alloc: Global, fields: u8, mut words: Pieces<'_>) -> Result<ReadEntry, Misread>
    requires { IsFieldCount fields }
    ensures { Tells entry_seen result (passing (is_entry fields)
        (entry_told (pieces_left words.entry))) }
{
    let Some(_number) = words.next() else {
        return Err(Misread::BadLine);
    };
    let Some(lane) = words.next() else {
        return Err(Misread::BadLine);
    };
    let Some(line) = words.next() else {
        return Err(Misread::BadLine);
    };
    let Some(lane) = find_digits(lane) else {
        return Err(Misread::BadLine);
    };
    let Some(line) = find_digits(line) else {
        return Err(Misread::BadLine);
    };
    let change = tell_change(alloc, fields, words)?;
    Ok(ReadEntry { lane, line, change })
}

fn tell_change(alloc: Global, fields: u8, mut words: Pieces<'_>) -> Result<Change, Misread>
    requires { IsFieldCount fields }
    ensures { Tells change_of result (passing (changes_row fields)
        (change_told (pieces_left words.entry))) }
{
    let Some(verb) = words.next() else {
        return Err(Misread::BadLine);
    };
    if verb == b"del".as_slice() {
        let key = last_key(alloc, fields, words)?;
        return Ok(Change::Del { key });
    }
    if verb == b"put".as_slice() {
        let (key, value) = row_in(alloc, fields, words)?;
        return Ok(Change::Put { key, value });
    }
    if verb == b"set".as_slice() {
        let (key, value) = row_in(alloc, fields, words)?;
        return Ok(Change::Set { key, value });
    }
    Err(Misread::BadLine)
}

/// The key of the last word.
fn last_key(alloc: Global, fields: u8, words: Pieces<'_>) -> Result<Key, Misread>
    requires { IsFieldCount fields }
    ensures { Tells (λ k. k.tuple) result (passing (is_key fields)
        (key_told (pieces_left words.entry))) }
{
    match one_word(words) {
        Some(word) => key_in(alloc, fields, word),
        None => Err(Misread::BadLine),
    }
}

fn put_entry(out: &mut Vec<u8>, number: u64, read: &ReadEntry) -> Result<(), NoMemory>
    ensures { OnOk result (out.new.items
        ≡ out.old.items ++ change_text number (entry_seen read.now)) }
{
    let number = Word::Number(number);
    let lane = Word::Number(read.lane);
    let line = Word::Number(read.line);
    match &read.change {
        Change::Put { key, value } => {
            let value = Word::Value(value.as_bytes());
            put_line(
                out,
                &[number, lane, line, Word::Text("put"), Word::Key(key), value],
            )
        }
        Change::Set { key, value } => {
            let value = Word::Value(value.as_bytes());
            put_line(
                out,
                &[number, lane, line, Word::Text("set"), Word::Key(key), value],
            )
        }
        Change::Del { key } => put_line(
            out,
            &[number, lane, line, Word::Text("del"), Word::Key(key)],
        ),
    }
}

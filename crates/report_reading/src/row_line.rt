//! The line of a row that a scan found.
ghost use Rattle.std.specs.Prelude.{◌≡◌, ◌++◌, OnOk};
ghost use Rattle.map_history.specs.Spelling.{row_line};
ghost use Rattle.report_forms.specs.Limits.{is_row};
ghost use Rattle.report_forms.specs.Scans.{row_told};
ghost use Rattle.report_reading.specs.Reads.{Tells, passing};
ghost use Rattle.report_reading.specs.Rows.{row_seen};
ghost use Rattle.script.specs.Pieces.{pieces_left};
ghost use Rattle.script.specs.Schema.{IsFieldCount};

use crate::kind::LineKind;
use crate::misread::Misread;
use crate::rows::row_in;
use key_tuple::{Key, NoMemory, Value};
use report_text::{Word, put_line};
use script::Pieces;
use std::alloc::Global;

/// The line of a row of an index whose keys have so many fields.
#[derive(Drop)]
pub struct RowLine {
    pub fields: u8,
}

impl LineKind for RowLine {
    ghost use Rattle.map_history.specs.Map.{Pair};
    ghost use Rattle.map_history.specs.Spelling.{row_line};
    ghost use Rattle.report_forms.specs.Limits.{is_row};
    ghost use Rattle.report_forms.specs.Scans.{row_told};
    ghost use Rattle.report_reading.specs.Rows.{row_seen};
    ghost use Rattle.script.specs.Schema.{IsFieldCount};

    type Read = (Key, Value);

    ghost Seen = { Pair };

    ghost view = { row_seen };

    ghost told = { row_told };

    ghost passes = { λ kind. is_row kind.fields };

    ghost text = { λ _. row_line };

    ghost can_tell = { λ kind. IsFieldCount kind.fields };

    fn tell(&self, alloc: Global, words: Pieces<'_>) -> Result<(Key, Value), Misread> {
        tell_row(alloc, self.fields, words)
    }

    fn put(&self, out: &mut Vec<u8>, read: &(Key, Value)) -> Result<(), NoMemory> {
        put_row(out, &read.0, &read.1)
    }
}

fn tell_row(alloc: Global, fields: u8, mut words: Pieces<'_>) -> Result<(Key, Value), Misread>
    requires { IsFieldCount fields }
    ensures { Tells row_seen result (passing (is_row fields) (row_told (pieces_left words.entry))) }
{
    if words.next().is_none() {
        return Err(Misread::BadLine);
    }
    row_in(alloc, fields, words)
}

fn put_row<'a>(out: &mut Vec<u8>, key: &'a Key, value: &'a Value) -> Result<(), NoMemory>
    ensures { OnOk result (out.new.items
        ≡ out.old.items ++ row_line (record { key = key.now.tuple; value = value.now })) }
{
    put_line(
        out,
        &[
            Word::Text("row"),
            Word::Key(key),
            Word::Value(value.as_bytes()),
        ],
    )
}

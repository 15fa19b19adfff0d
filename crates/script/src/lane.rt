//! Lines of a lane.
ghost use Rattle.std.specs.Prelude.{◌≡◌, ◌<◌, ◌≤◌, length, IfOk, option_map, slice_index};
ghost use Rattle.map_history.specs.Operation.{operation_of};
ghost use Rattle.script.specs.Grammar.{line_words};
ghost use Rattle.script.specs.Lane.{line_meaning, operation_in, index_named, operation_for};
ghost use Rattle.script.specs.Pieces.{pieces_left};
ghost use Rattle.script.specs.Steps.{Gives};
ghost use Rattle.script.specs.Views.{schema_text};

use crate::error::{Flaw, Refusal};
use crate::names::find_name;
use crate::pieces::Pieces;
use crate::rows::{read_key, read_row, read_search};
use crate::schema::Schema;
use crate::verb::{Verb, find_verb};
use crate::words::{has_name_form, is_silent};
use key_tuple::MAX_FIELDS;
use map_history::Op;
use std::alloc::Global;

/// What a line of a lane says.
#[tactic(auto, unfolding(crate::specs::Lane::line_meaning))]
pub fn read_line(alloc: Global, line: &[u8], schema: &Schema) -> Result<Option<Op>, Refusal>
    ensures { Gives (λ o. option_map operation_of o) result
        (line_meaning (schema_text schema.now) line.now) }
{
    if is_silent(line) {
        return Ok(None);
    }
    let op = read_operation(alloc, line, schema)?;
    Ok(Some(op))
}

fn read_operation(alloc: Global, line: &[u8], schema: &Schema) -> Result<Op, Refusal>
    ensures { Gives operation_of result
        (operation_in (schema_text schema.now) (line_words line.now)) }
{
    let mut words = Pieces::new(line, b' ');
    let Some(verb) = words.next().and_then(find_verb) else {
        return Err(Refusal::Flawed(Flaw::BadLine));
    };
    let Some(name) = words.next() else {
        return Err(Refusal::Flawed(Flaw::BadLine));
    };
    let index = find_index(schema, name)?;
    let count = field_count(schema, index);
    read_parts(alloc, verb, index, count, words)
}

fn read_parts(
    alloc: Global,
    verb: Verb,
    index: u32,
    count: u8,
    words: Pieces<'_>,
) -> Result<Op, Refusal>
    requires some { 0 < count }
    requires few { count ≤ MAX_FIELDS }
    ensures { Gives operation_of result (operation_for verb index count (pieces_left words.entry)) }
{
    match verb {
        Verb::Get => {
            let key = read_key(alloc, count, words)?;
            Ok(Op::Get { index, key })
        }
        Verb::Put => {
            let (key, value) = read_row(alloc, count, words)?;
            Ok(Op::Put { index, key, value })
        }
        Verb::Set => {
            let (key, value) = read_row(alloc, count, words)?;
            Ok(Op::Set { index, key, value })
        }
        Verb::Del => {
            let key = read_key(alloc, count, words)?;
            Ok(Op::Del { index, key })
        }
        Verb::Seek => {
            let (mode, tuple) = read_search(alloc, count, words)?;
            Ok(Op::Seek { index, mode, tuple })
        }
    }
}

/// The number of the index of this name.
fn find_index(schema: &Schema, name: &[u8]) -> Result<u32, Flaw>
    ensures found { result ≡ index_named (schema_text schema.now) name.now }
    ensures known { IfOk result (λ i. i < length schema.now.names.items) }
{
    if !has_name_form(name) {
        return Err(Flaw::BadLine);
    }
    match find_name(&schema.names, name) {
        Some(index) => Ok(index as u32),
        None => Err(Flaw::UnknownIndex),
    }
}

/// How many fields the keys of an index have.
fn field_count(schema: &Schema, index: u32) -> u8
    requires { index < length schema.now.names.items }
    ensures count { result ≡ slice_index schema.now.fields.items index }
    ensures some { 0 < result }
    ensures few { result ≤ MAX_FIELDS }
{
    schema.fields[index as usize]
}

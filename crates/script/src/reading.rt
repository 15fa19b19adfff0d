//! Whole files.
ghost use Rattle.std.specs.Prelude.{◌≡◌, ◌≤◌, length, IfOk, IfErr, OnOk, Ok};
ghost use Rattle.script.specs.Grammar.{lines_of};
ghost use Rattle.script.specs.Lane.{lane_of, line_meaning, AreLaneLines, NumbersRise, TakesLine};
ghost use Rattle.script.specs.Schema.{schema_of};
ghost use Rattle.script.specs.Steps.{GivesWhole, Fails, RefusesAlike, HasCause};
ghost use Rattle.script.specs.Views.{schema_text, draft_text};
ghost use Rattle.map_history.specs.Lines.{line_texts};

use crate::draft::Draft;
use crate::error::{Flaw, Refusal, ScriptError};
use crate::lane::read_line;
use crate::pieces::Lines;
use crate::schema::Schema;
use crate::{DEFAULT_SIZES, MAX_FILE_BYTES};
use map_history::Line;
use std::alloc::Global;

/// The schema that a file spells. A refusal speaks of the first line that isn't in the grammar; a
/// file without an index is refused one line behind its last.
pub fn read_schema(alloc: Global, bytes: &[u8]) -> Result<Schema, ScriptError>
    requires { length bytes.now ≤ MAX_FILE_BYTES }
    ensures ok { IfOk result (λ s. schema_of bytes.now ≡ Ok (schema_text s)) }
    ensures refused { RefusesAlike result (schema_of bytes.now) }
    ensures cause { HasCause result (schema_of bytes.now) }
{
    let draft = read_indexes(alloc, bytes)?;
    Ok(Schema {
        sizes: draft.sizes,
        names: draft.names,
        fields: draft.fields,
    })
}

/// The operations of a lane, each with its line. A refusal speaks of the first line that isn't in
/// the grammar.
pub fn read_lane(alloc: Global, bytes: &[u8], schema: &Schema) -> Result<Vec<Line>, ScriptError>
    requires { length bytes.now ≤ MAX_FILE_BYTES }
    ensures ok { IfOk result (λ v. lane_of (schema_text schema.now) bytes.now
        ≡ Ok (line_texts v.items)) }
    ensures refused { RefusesAlike result (lane_of (schema_text schema.now) bytes.now) }
    ensures cause { HasCause result (lane_of (schema_text schema.now) bytes.now) }
    ensures lines { IfOk result (λ v. AreLaneLines (schema_text schema.now) (line_texts v.items)) }
    ensures numbers { IfOk result (λ v. NumbersRise (length (lines_of bytes.now))
        (line_texts v.items)) }
{
    read_lines(alloc, bytes, schema)
}

#[tactic(auto, unfolding(crate::specs::Schema::schema_of), using(crate::proofs::Whole::few_lines))]
fn read_indexes(alloc: Global, bytes: &[u8]) -> Result<Draft, ScriptError>
    requires { length bytes.now ≤ MAX_FILE_BYTES }
    ensures { GivesWhole draft_text result (schema_of bytes.now) }
{
    let mut draft = Draft {
        sizes: DEFAULT_SIZES,
        given: Vec::new(alloc),
        names: Vec::new(alloc),
        fields: Vec::new(alloc),
    };
    let mut number: u32 = 1;
    for line in Lines::new(bytes) {
        if let Err(refusal) = draft.take_line(alloc, line) {
            return Err(refusal.at(number));
        }
        number += 1;
    }
    if draft.names.is_empty() {
        return Err(Refusal::Flawed(Flaw::BadLine).at(number));
    }
    Ok(draft)
}

#[tactic(auto, unfolding(crate::specs::Lane::lane_of), using(crate::proofs::Whole::few_lines, crate::proofs::Whole::after_none, crate::proofs::Whole::lane_stops, crate::proofs::Whole::lane_goes))]
fn read_lines(alloc: Global, bytes: &[u8], schema: &Schema) -> Result<Vec<Line>, ScriptError>
    requires { length bytes.now ≤ MAX_FILE_BYTES }
    ensures { GivesWhole (λ v. line_texts v.items) result
        (lane_of (schema_text schema.now) bytes.now) }
{
    let mut lines = Vec::new(alloc);
    let mut number: u32 = 1;
    for line in Lines::new(bytes) {
        if let Err(refusal) = take_line(alloc, &mut lines, number, line, schema) {
            return Err(refusal.at(number));
        }
        number += 1;
    }
    Ok(lines)
}

/// Puts what a line says behind the others.
fn take_line(
    alloc: Global,
    lines: &mut Vec<Line>,
    number: u32,
    line: &[u8],
    schema: &Schema,
) -> Result<(), Refusal>
    ensures ok { OnOk result (TakesLine (schema_text schema.now) number line.now
        (line_texts lines.old.items) (line_texts lines.new.items)) }
    ensures cause { IfErr result (λ e. Fails e (line_meaning (schema_text schema.now) line.now)) }
{
    if let Some(op) = read_line(alloc, line, schema)? {
        lines.push(Line { line: number, op })?;
    }
    Ok(())
}

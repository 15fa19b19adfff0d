//! The files of a command, loaded and read in their order.
ghost use Rattle.std.specs.Prelude.{◌≡◌, ◌+◌, ◌≤◌, length, map, IfOk, IfErr, string_bytes, vec_len};
ghost use Rattle.std.specs.Option.{ForSome};
ghost use Rattle.io_port.specs.Shelf.{IsFileOf};
ghost use Rattle.script.specs.declared.TheConstants.{MAX_FILE_BYTES};
ghost use Rattle.script.specs.Views.{schema_text};
ghost use Rattle.map_history.specs.declared.TheConstants.{MAX_INDEXES, MAX_LANES};
ghost use Rattle.map_history.specs.Lines.{line_texts};
ghost use Rattle.lane_law.specs.Lines.{AreLinesOf};
ghost use Rattle.lane_threads.specs.Together.{lane_texts, AllAreLinesOf};
ghost use Rattle.ahi_cli.specs.Files.{failures_of, KeepsFiles, StopsLoading, StopsFile, StopsReading, SpellsSchema, SpellsLane, SpellsLanes, Spells};
ghost use Rattle.ahi_cli.specs.Stops.{schema_stop, lane_stop, flaw_code, refused};
ghost use Rattle.ahi_cli.specs.Words.{names_of, file_names};

use crate::stop::Stop;
use crate::words::Command;
use io_port::{Shelf, ShelfError};
use script::{Flaw, Line, MAX_FILE_BYTES, Schema, ScriptError, read_lane, read_schema};
use std::alloc::Global;

/// A schema and lanes.
#[derive(Drop)]
pub struct Script {
    pub schema: Schema,
    pub lanes: Vec<Vec<Line>>,
}

/// Loads and reads the schema, then the lanes in their order. The first refusal ends it. The sizes
/// aren't judged.
pub fn read_script<F: Shelf>(
    alloc: Global,
    shelf: &mut F,
    command: &Command<'_>,
) -> Result<Script, Stop>
    requires { length command.now.lanes.now ≤ MAX_LANES }
    ensures ok { IfOk result (λ s. ForSome (F.holds shelf.old)
        (λ files. Spells files (names_of command.now)
        (schema_text s.schema) (lane_texts s.lanes.items))) }
    ensures err { IfErr result (StopsReading (F.holds shelf.old)
        (failures_of F.Shelf shelf.old shelf.new) (file_names (names_of command.now))) }

    // Whether or not the files are told:
    ensures lanes { IfOk result (λ s. vec_len s.lanes ≡ length command.now.lanes.now) }
    ensures lines { IfOk result (λ s. AllAreLinesOf s.schema.fields.items s.lanes.items) }
    ensures indexes { IfOk result (λ s. (1 ≤ vec_len s.schema.names)
        × (vec_len s.schema.names ≤ MAX_INDEXES)
        × (vec_len s.schema.fields ≡ vec_len s.schema.names)) }
{
    let (schema, size) = load_schema(alloc, shelf, command.schema)?;
    let lanes = load_lanes(alloc, shelf, command, &schema, size)?;
    Ok(Script { schema, lanes })
}

/// The schema of a file, and how many bytes the file has.
fn load_schema<F: Shelf>(alloc: Global, shelf: &mut F, name: &str) -> Result<(Schema, u64), Stop>
    ensures ok { IfOk result (λ r. ForSome (F.holds shelf.old)
        (λ files. SpellsSchema files name.now (schema_text r.0) r.1)) }
    ensures fits { IfOk result (λ r. r.1 ≤ MAX_FILE_BYTES) }
    ensures err { IfErr result (StopsFile (F.holds shelf.old)
        (failures_of F.Shelf shelf.old shelf.new) 0 name.now schema_stop) }
    ensures kept { KeepsFiles F.Shelf shelf.old shelf.new }
{
    match load(alloc, shelf, name, 0, MAX_FILE_BYTES as u64) {
        Ok(bytes) => match read_schema(alloc, &bytes) {
            Ok(schema) => Ok((schema, bytes.len() as u64)),
            Err(error) => Err(refuse(0, error)),
        },
        Err(stop) => Err(stop),
    }
}

/// The lanes of a command, behind its schema's file of so many bytes.
fn load_lanes<F: Shelf>(
    alloc: Global,
    shelf: &mut F,
    command: &Command<'_>,
    schema: &Schema,
    before: u64,
) -> Result<Vec<Vec<Line>>, Stop>
    requires few { length command.now.lanes.now ≤ MAX_LANES }
    requires fits { before ≤ MAX_FILE_BYTES }
    requires spelled { ForSome (F.holds shelf.old)
        (λ files. SpellsSchema files command.now.schema.now (schema_text schema.now) before) }
    ensures ok { IfOk result (λ v. ForSome (F.holds shelf.old)
        (λ files. SpellsLanes files (schema_text schema.now) before
        (map string_bytes command.now.lanes.now) (lane_texts v.items))) }
    ensures lanes { IfOk result (λ v. vec_len v ≡ length command.now.lanes.now) }
    ensures lines { IfOk result (λ v. AllAreLinesOf schema.now.fields.items v.items) }
    ensures err { IfErr result (StopsReading (F.holds shelf.old)
        (failures_of F.Shelf shelf.old shelf.new) (file_names (names_of command.now))) }
    ensures kept { KeepsFiles F.Shelf shelf.old shelf.new }
{
    let mut lanes = Vec::new(alloc);
    let mut size = before;
    for (i, name) in command.lanes.iter().enumerate() {
        let file = i as u32 + 1;
        let (lines, bytes) = load_lane(alloc, shelf, name.as_str(), schema, file, size)?;
        lanes.push(lines)?;
        size += bytes;
    }
    Ok(lanes)
}

/// The lines of the file with this number, behind files of so many bytes, and how many it has.
fn load_lane<F: Shelf>(
    alloc: Global,
    shelf: &mut F,
    name: &str,
    schema: &Schema,
    file: u32,
    before: u64,
) -> Result<(Vec<Line>, u64), Stop>
    requires { before ≤ MAX_FILE_BYTES }
    ensures ok { IfOk result (λ r. ForSome (F.holds shelf.old)
        (λ files. (lane : SpellsLane files name.now (schema_text schema.now) before
        (line_texts r.0.items)) × (r.1 ≡ length lane.bytes))) }
    ensures fits { IfOk result (λ r. before + r.1 ≤ MAX_FILE_BYTES) }
    ensures lines { IfOk result (λ r. AreLinesOf schema.now.fields.items r.0.items) }
    ensures err { IfErr result (StopsFile (F.holds shelf.old)
        (failures_of F.Shelf shelf.old shelf.new) file name.now
        (lane_stop file before (schema_text schema.now))) }
    ensures kept { KeepsFiles F.Shelf shelf.old shelf.new }
{
    match load(alloc, shelf, name, file, MAX_FILE_BYTES as u64 - before) {
        Ok(bytes) => match read_lane(alloc, &bytes, schema) {
            Ok(lines) => Ok((lines, bytes.len() as u64)),
            Err(error) => Err(refuse(file, error)),
        },
        Err(stop) => Err(stop),
    }
}

/// The bytes of the file with this number and name, if they are no more than the limit.
fn load<F: Shelf>(
    alloc: Global,
    shelf: &mut F,
    name: &str,
    file: u32,
    limit: u64,
) -> Result<Vec<u8>, Stop>
    ensures ok { IfOk result (λ bytes. IsFileOf (F.holds shelf.old) name.now bytes.items) }
    ensures within { IfOk result (λ bytes. length bytes.items ≤ limit) }
    ensures err { IfErr result (StopsLoading (F.holds shelf.old)
        (failures_of F.Shelf shelf.old shelf.new) file name.now limit) }
    ensures kept { KeepsFiles F.Shelf shelf.old shelf.new }
{
    match shelf.load(alloc, name, limit) {
        Ok(bytes) => Ok(bytes),
        Err(ShelfError::Failed) => Err(Stop::Shelf { file }),
        Err(ShelfError::TooLong(_)) => Err(Stop::TooLarge { file }),
        Err(ShelfError::NoMemory) => Err(Stop::NoMemory),
    }
}

/// The refusal that an error of a file is.
fn refuse(file: u32, error: ScriptError) -> Stop
    ensures { result ≡ refused file error }
{
    match error {
        ScriptError::Flawed { line, flaw } => Stop::Script {
            file,
            line,
            code: code_of(flaw),
        },
        ScriptError::NoMemory => Stop::NoMemory,
    }
}

/// The code of a flaw.
fn code_of(flaw: Flaw) -> u8
    ensures { result ≡ flaw_code flaw }
{
    match flaw {
        Flaw::BadLine => 1,
        Flaw::UnknownIndex => 2,
        Flaw::TooLong => 3,
    }
}

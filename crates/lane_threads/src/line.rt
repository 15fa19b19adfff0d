//! One line, asked of an engine.
ghost use Rattle.std.specs.Prelude.{IfOk, OnErr};
ghost use Rattle.map_history.specs.Lines.{line_text};
ghost use Rattle.index_engine.specs.Engines.{known, lessons_of, IsOf, IsSame};
ghost use Rattle.call_law.specs.Once.{IsQuiet};
ghost use Rattle.engine_law.specs.Tells.{TellsOnce};
ghost use Rattle.search_info.specs.Tries.{TriesAfter};
ghost use Rattle.lane_threads.specs.Workable.{IsWorkable};

use index_engine::{Engine, EnginePass};
use key_tuple::NoMemory;
use map_history::{Line, Op, RowBuf, Told};
use std::sync::Wait;

/// Asks the engine what a line asks for. A found row is put in `row`.
pub(crate) fn work_line<R: Wait>(
    engine: &Engine,
    pass: &mut EnginePass,
    line: &Line,
    row: &mut RowBuf,
    wait: &R,
) -> Result<Told, NoMemory>
    requires own { IsOf engine.now pass.old }
    requires line { IsWorkable engine.now line.now }
    ensures own { IsSame pass.old pass.new × IsOf engine.now pass.new }
    ensures ok { IfOk result (λ told. TellsOnce (known pass.old) (known pass.new)
        (line_text line.now).op.index (line_text line.now).op.ask told row.new) }
    ensures tried { IfOk result (λ told. TriesAfter (lessons_of pass.old)
        (line_text line.now).op.index told.how (lessons_of pass.new)) }
    ensures err { OnErr result (IsQuiet (known pass.old) (known pass.new)
        (line_text line.now).op.index) }
{
    match &line.op {
        Op::Get { index, key } => Ok(engine.get(pass, *index, key, row, wait)),
        Op::Put { index, key, value } => engine.put(pass, *index, key, value, wait),
        Op::Set { index, key, value } => engine.set(pass, *index, key, value, wait),
        Op::Del { index, key } => Ok(engine.del(pass, *index, key, wait)),
        Op::Seek { index, mode, tuple } => Ok(engine.seek(pass, *index, *mode, tuple, row, wait)),
        Op::Scan { .. } => unreachable!(),
    }
}

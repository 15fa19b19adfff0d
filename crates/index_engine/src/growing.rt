//! Room for a row, or the answer that there is no page for it.
ghost use Rattle.std.specs.Prelude.{◌≡◌, IfOk, IfSome, OnErr};
ghost use Rattle.latch_space.specs.Has.{SameHands};
ghost use Rattle.latch_space.specs.Passes.{view, count, IsSamePass};
ghost use Rattle.latch_space.specs.Spaces.{IsPassOf};
ghost use Rattle.map_history.specs.Operation.{operation_by};
ghost use Rattle.map_history.specs.Told.{columns_told};
ghost use Rattle.call_law.specs.Once.{IsQuiet};
ghost use Rattle.index_engine.specs.Writes.{write_asked, KnowsShort, SaysNoRoom, TellsGrowth};
ghost use Rattle.engine_law.specs.Says.{columns_by};
ghost use Rattle.leaf_changes.specs.Says.{told_space_full};

use crate::write::Write;
use buffer_pool::PoolError;
use forest_world::ForestPass;
use index_law::Say;
use index_page::{Body, charge};
use key_tuple::{NoMemory, Value};
use leaf_changes::TreeCall;
use map_history::{OpRef, Reply, Told};
use std::sync::Wait;
use tree_growth::make_room;

/// Makes room for the key's row on its leaf, and answers nothing then. Where no page number is
/// free, that is what the write is told.
pub(crate) fn grow<R: Wait>(
    call: &TreeCall<'_, R>,
    pass: &mut ForestPass,
    write: Write,
    value: &Value,
) -> Result<Option<Told>, NoMemory>
    requires own { IsPassOf call.now.space.now pass.old }
    requires nothing { count pass.old ≡ 0 }
    ensures own { IsSamePass pass.old pass.new × IsPassOf call.now.space.now pass.new }
    ensures nothing { count pass.new ≡ 0 }
    ensures ok { IfOk result (λ told. TellsGrowth (view pass.old) (view pass.new) call.now.index
        (write_asked write call.now.key.now.tuple value.now) told) }
    ensures columns { IfOk result (λ told. IfSome told
        (λ t. columns_told t ≡ columns_by call.now.found)) }
    ensures err { OnErr result (IsQuiet (view pass.old) (view pass.new) call.now.index) }
{
    call.key.tuple().is_within_limits();
    let need = charge(call.key, Body::Value(value));
    let room = make_room(
        call.alloc, call.space, pass, call.index, call.key, need, call.wait,
    );
    match room {
        Ok(()) => Ok(None),
        Err(refusal) => match refusal {
            PoolError::SpaceFull => Ok(Some(say_space_full(call, pass, write, value))),
            PoolError::NoMemory => Err(NoMemory),
        },
    }
}

/// Answers the write for want of a page, of so few.
fn say_space_full<R>(
    call: &TreeCall<'_, R>,
    pass: &mut ForestPass,
    write: Write,
    value: &Value,
) -> Told
    requires own { IsPassOf call.now.space.now pass.old }
    requires short { KnowsShort (view pass.old) }
    ensures own { IsSamePass pass.old pass.new × IsPassOf call.now.space.now pass.new }
    ensures did { SaysNoRoom (view pass.old) (view pass.new) call.now.index
        (write_asked write call.now.key.now.tuple value.now) (columns_by call.now.found) }
    ensures kept { SameHands pass.old pass.new }
    ensures told { result ≡ told_space_full call.now.found }
{
    let op = write_op(call, write, value);
    let told = Told {
        reply: Reply::SpaceFull,
        point: None,
        how: call.found.how,
        note: call.found.note,
    };
    let said = Say::Reply {
        op,
        reply: told.reply,
        row: None,
        bound: None,
        how: told.how,
        note: told.note,
    };
    call.space.read_point(pass, call.index, &said);
    told
}

/// The write of the key's row, as an operation.
fn write_op<'a, R>(call: &'a TreeCall<'_, R>, write: Write, value: &'a Value) -> OpRef<'a>
    ensures { (operation_by result).ask
        ≡ write_asked write call.now.key.now.tuple value.now }
{
    let (index, key) = (call.index, call.key);
    match write {
        Write::Put => OpRef::Put { index, key, value },
        Write::Set => OpRef::Set { index, key, value },
    }
}

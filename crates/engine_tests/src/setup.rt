//! Engines of one index: how they are opened and asked, and what lies in them at their end.
ghost use Rattle.std.specs.Prelude.{◌≡◌, ◌<◌, ◌≤◌};
ghost use Rattle.key_tuple.specs.declared.TheConstants.{MAX_FIELDS};
ghost use Rattle.map_history.specs.declared.TheConstants.{MAX_LANES};
ghost use Rattle.index_engine.specs.Engines.{IsOf};
ghost use Rattle.engine_tests.specs.Fields.{FirstHasFields};

use crate::asked::{Order, Run, count_of, key_of, order_at, value_of};
use crate::claims::{ensure, ensure_at};
use crate::recount::{Counted, recount};
use index_engine::{Engine, EnginePass};
use key_tuple::{Fields, Key, Value};
use map_history::{RowBuf, Sizes, Told};
use std::alloc::Global;
use std::process::Abort;
use std::sync::Wait;

/// The smallest sizes for one index and one lane, but for pages and changes.
pub(crate) fn smallest(pages: u32, max_changes: u32) -> Sizes {
    Sizes {
        blocks: 16,
        pages,
        parts: 1,
        cells: 1,
        nodes: 0,
        fold_bits: 1,
        max_changes,
    }
}

/// An engine of these sizes for so many callers, whose keys have so many fields, and its pass.
pub(crate) fn open<R: AllocGlobal + Abort>(
    rt: &R,
    sizes: &Sizes,
    fields: u8,
    lanes: u32,
) -> (Engine, EnginePass)
    requires fields { (1 ≤ fields) × (fields ≤ MAX_FIELDS) }
    requires lanes { (0 < lanes) × (lanes ≤ MAX_LANES) }
    ensures own { IsOf result.0 result.1 }
    ensures fields { FirstHasFields result.0 fields }
{
    Engine::open(rt.alloc(), sizes, &[fields], lanes).expect(rt, "an engine")
}

/// What an order is told by an engine whose keys have so many fields, with this key, and with this
/// value where it has one.
fn answered<R: Abort + Wait>(
    rt: &R,
    engine: &Engine,
    pass: &mut EnginePass,
    out: &mut RowBuf,
    fields: u8,
    key: &Key,
    order: &Order,
    value: &Value,
) -> Told
    requires own { IsOf engine.now pass.old }
    requires fields { FirstHasFields engine.now fields }
    ensures own { IsOf engine.now pass.new }
{
    if let Order::Seek(mode) = order {
        ensure(rt, key.count() <= fields, "no more fields than a key has");
        return engine.seek(pass, 0, *mode, key.tuple(), out, rt);
    }
    ensure(rt, key.count() == fields, "as many fields as a key has");
    let told = match order {
        Order::Put(_) => engine.put(pass, 0, key, value, rt),
        Order::Set(_) => engine.set(pass, 0, key, value, rt),
        Order::Del => Ok(engine.del(pass, 0, key, rt)),
        Order::Get | Order::Seek(_) => Ok(engine.get(pass, 0, key, out, rt)),
    };
    told.expect(rt, "memory for a value")
}

/// Whether the order with this place is told what it has to be, by an engine whose keys have so many
/// fields.
fn is_told<R: Abort + Wait>(
    rt: &R,
    alloc: Global,
    engine: &Engine,
    pass: &mut EnginePass,
    out: &mut RowBuf,
    fields: u8,
    runs: &[Run],
    place: u32,
) -> bool
    requires own { IsOf engine.now pass.old }
    requires fields { FirstHasFields engine.now fields }
    ensures own { IsOf engine.now pass.new }
{
    let (asked, name) = order_at(runs, place).expect(rt, "no such order");
    let key = key_of(rt, alloc, &name);
    let value = value_of(rt, alloc, asked.order.text());
    let told = answered(rt, engine, pass, out, fields, &key, &asked.order, &value);
    asked.is_told(&told, out.value())
}

/// How much of this was told what it has to be, up to the first that wasn't.
pub(crate) fn worked<R: Abort + Wait>(
    rt: &R,
    alloc: Global,
    engine: &Engine,
    pass: &mut EnginePass,
    fields: u8,
    runs: &[Run],
) -> u32
    requires own { IsOf engine.now pass.old }
    requires fields { FirstHasFields engine.now fields }
    ensures own { IsOf engine.now pass.new }
{
    let mut out = RowBuf::new(alloc).expect(rt, "a row buffer");
    let count = count_of(runs);
    for place in 0..count {
        if !is_told(rt, alloc, engine, pass, &mut out, fields, runs, place) {
            return place;
        }
    }
    count
}

/// What is hashed of what lay in an engine of these sizes, whose only pass this is.
pub(crate) fn counted<R: AllocGlobal + Abort>(
    rt: &R,
    engine: Engine,
    pass: EnginePass,
    sizes: &Sizes,
) -> Counted
    requires own { IsOf engine pass }
{
    let (low, end) = pass.numbers();
    ensure(rt, low == 0 && end == engine.lanes(), "the only pass");
    let objects = engine
        .close(rt.alloc(), pass)
        .expect(rt, "memory for what lay there");
    recount(rt, objects, sizes)
}

/// How much of this an engine's only caller was told as it has to be, up to the first that wasn't; and
/// what was hashed then.
pub(crate) fn asked_alone<R: AllocGlobal + Abort + Wait>(
    rt: &R,
    sizes: &Sizes,
    fields: u8,
    runs: &[Run],
) -> (u32, Counted)
    requires fields { (1 ≤ fields) × (fields ≤ MAX_FIELDS) }
{
    let (engine, mut pass) = open(rt, sizes, fields, 1);
    let count = worked(rt, rt.alloc(), &engine, &mut pass, fields, runs);
    (count, counted(rt, engine, pass, sizes))
}

/// What was hashed once an engine's only caller had asked all this, and was told what it has to be.
pub(crate) fn counted_alone<R: AllocGlobal + Abort + Wait>(
    rt: &R,
    sizes: &Sizes,
    fields: u8,
    runs: &[Run],
) -> Counted
    requires fields { (1 ≤ fields) × (fields ≤ MAX_FIELDS) }
{
    let (count, counted) = asked_alone(rt, sizes, fields, runs);
    ensure_at(rt, count == count_of(runs), "order", count as usize);
    counted
}

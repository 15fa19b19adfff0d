//! A cursor is made on a leaf in hand.
ghost use Rattle.std.specs.Prelude.{◌≡◌, ◌<◌, length, IfOk};
ghost use Rattle.key_tuple.specs.Limits.{IsWithinLimits};
ghost use Rattle.latch_space.specs.Has.{IsKnown};
ghost use Rattle.latch_space.specs.Passes.{view};
ghost use Rattle.latch_space.specs.Spaces.{IsPassOf};
ghost use Rattle.tree_law.specs.Pages.{HasFields};
ghost use Rattle.forest_law.specs.State.{bound};
ghost use Rattle.buffer_pool.specs.Forests.{IsForest};
ghost use Rattle.tree_cursor.specs.Storing.{HasStand, IsKeyOf, MayStore, Stores};

use crate::cursor::Cursor;
use buffer_pool::frame;
use forest_world::{ForestPass, ForestSpace, fits};
use index_page::{Page, Place};
use key_tuple::{Fields, Key, NoMemory};
use std::alloc::Global;

/// A cursor before the row at a place of the leaf in the block's frame, or before the leaf's high key
/// where no place is named. It makes no step, and takes memory for the key alone.
pub fn store(
    alloc: Global,
    space: &ForestSpace,
    pass: &ForestPass,
    block: u32,
    place: Option<Place>,
) -> Result<Cursor, NoMemory>
    requires own { IsForest space.now × IsPassOf space.now pass.now }
    requires known { IsKnown pass.now }
    requires leaf { MayStore (view pass.now) block place }
    ensures { IfOk result (Stores (view pass.now) block place) }
{
    fits(pass);
    let found = frame(space, pass, block);
    let Some(page) = &found.page else {
        unreachable!()
    };
    let key = key_at(alloc, page, &found.high, place)?;
    Ok(Cursor {
        block,
        clock: found.clock,
        page: page.head().number,
        place,
        key,
        after: false,
    })
}

/// The key of the row at the place or, where none is named, the high key.
fn key_at(
    alloc: Global,
    page: &Page,
    high: &Option<Key>,
    place: Option<Place>,
) -> Result<Key, NoMemory>
    requires some { 0 < page.now.head.fields }
    requires stand { HasStand page.now.rows high.now place }
    requires high { HasFields page.now.head.fields (bound high.now) }
    ensures key { IfOk result (λ k. IsKeyOf page.now.rows high.now place k.tuple) }
    ensures fields { IfOk result (λ k. length k.tuple ≡ page.now.head.fields) }
    ensures room { IfOk result (λ k. k.room ≡ page.now.head.fields) }
{
    match place {
        Some(place) => refillable(alloc, &page.row(place)),
        None => match high {
            Some(key) => {
                key.tuple().is_within_limits();
                refillable(alloc, key)
            }
            None => unreachable!(),
        },
    }
}

/// A key with these fields, which may be refilled with as many.
fn refillable<A: Fields>(alloc: Global, from: &A) -> Result<Key, NoMemory>
    requires some { 0 < length (A.fields_of from.now) }
    requires limits { IsWithinLimits (A.fields_of from.now) }
    ensures key { IfOk result (λ k. k.tuple ≡ A.fields_of from.now) }
    ensures room { IfOk result (λ k. k.room ≡ length (A.fields_of from.now)) }
{
    let mut key = Key::with_room(alloc, from.count())?;
    key.refill(from);
    Ok(key)
}

//! The lowest page number that is free is looked for, and a frame for its page.
ghost use Rattle.std.specs.Prelude.{◌≡◌, ◌<◌, ◌+◌, ◌≤◌, ◌↔◌, Some, length, IsTrue, IfSome, IfNone, IfOk, IfErr};
ghost use Rattle.latch_space.specs.declared.TheConstants.{MAX_HELD};
ghost use Rattle.latch_space.specs.Has.{IsKnown};
ghost use Rattle.latch_space.specs.Passes.{view, count, IsSamePass};
ghost use Rattle.latch_space.specs.Spaces.{IsPassOf};
ghost use Rattle.index_page.specs.Page.{IsNeighbour};
ghost use Rattle.forest_law.specs.declared.objects.Where.TheVariants as place;
ghost use Rattle.forest_world.specs.Held.{shape_of_pass};
ghost use Rattle.call_law.specs.Hands.{HoldsNoTable};
ghost use Rattle.buffer_pool.specs.declared.error.PoolError.TheVariants as refused;
ghost use Rattle.buffer_pool.specs.Forests.{IsForest, IsFittedTree};
ghost use Rattle.buffer_pool.specs.FreeNumbers.{HoldsFree, TellsFree};
ghost use Rattle.buffer_pool.specs.NewPages.{IsLowestFree, HasNoneFree, FindsNoneFree};

use crate::error::PoolError;
use crate::full::say_full;
use crate::pools::{give_pool_back, pool, take_pool};
use crate::victims::make_room;
use crossbeam_utils::Backoff;
use forest_world::{ForestPass, ForestSpace, Pool, Where, shape};
use std::sync::Wait;

/// What a look at the pool found.
#[derive(Clone, Copy)]
pub(crate) enum Found {
    /// A free number and a block, whose frame is held now with the pool, and has no page.
    Room(u32, u32),
    /// A free number, and no frame that could be had.
    NoRoom,
    /// No free number.
    NoneFree,
}

/// Looks until the pool is held with its lowest free number, and a frame without a page. Where the
/// pool has no free number, that is said at the index's list.
pub(crate) fn hold_room<R: Wait>(
    space: &ForestSpace,
    pass: &mut ForestPass,
    index: u32,
    wait: &R,
) -> Result<(u32, u32), PoolError>
    requires own { IsForest space.now × IsPassOf space.now pass.old }
    requires index { index < (shape_of_pass pass.old).indexes }
    requires known { IsKnown pass.old }
    requires tables { HoldsNoTable (view pass.old) }
    requires room { count pass.old + 3 ≤ MAX_HELD }
    ensures own { IsSamePass pass.old pass.new × IsPassOf space.now pass.new }
    ensures ok { IfOk result (λ r. HoldsFree pass.old r.0 r.1 pass.new) }
    ensures full { IfErr result (λ e. (e ≡ refused.SpaceFull)
        × FindsNoneFree pass.old index pass.new) }
    ensures fits { IsFittedTree (view pass.new) }
{
    let backoff = Backoff::new();
    for _ in wait.forever() {
        match try_room(space, pass, index, wait) {
            Found::Room(number, block) => return Ok((number, block)),
            Found::NoneFree => return Err(PoolError::SpaceFull),
            Found::NoRoom => backoff.snooze(),
        }
    }
    unreachable!()
}

// One look at the pool. Nothing is waited for while it is held: where no frame can be had it is
// given back.
fn try_room<R: Wait>(space: &ForestSpace, pass: &mut ForestPass, index: u32, wait: &R) -> Found
    requires own { IsForest space.now × IsPassOf space.now pass.old }
    requires index { index < (shape_of_pass pass.old).indexes }
    requires known { IsKnown pass.old }
    requires tables { HoldsNoTable (view pass.old) }
    requires room { count pass.old + 3 ≤ MAX_HELD }
    ensures own { IsSamePass pass.old pass.new × IsPassOf space.now pass.new }
    ensures did { TellsFree pass.old index result pass.new }
    ensures fits { IsFittedTree (view pass.new) }
{
    take_pool(space, pass, wait);
    let pages = shape(space).pages();
    let Some(number) = lowest_free(pool(space, pass), pages) else {
        say_full(space, pass, index);
        give_pool_back(space, pass);
        return Found::NoneFree;
    };
    let Some(block) = make_room(space, pass, wait) else {
        give_pool_back(space, pass);
        return Found::NoRoom;
    };
    Found::Room(number, block)
}

// The lowest number that is free, of so many: the last `u32` is none of them.
fn lowest_free(pool: &Pool, pages: u32) -> Option<u32>
    requires { length pool.now.place.items ≡ pages }
    ensures found { IfSome result (IsLowestFree pool.now) }
    ensures named { IfSome result (λ n. IsNeighbour (Some n)) }
    ensures none { IfNone result (HasNoneFree pool.now) }
{
    for n in 0..pages {
        if is_free(pool.place[n as usize]) {
            return Some(n);
        }
    }
    None
}

// Whether no page has the number.
fn is_free(found: Where) -> bool
    ensures { IsTrue result ↔ (found ≡ place.Free) }
{
    match found {
        Where::Free => true,
        _ => false,
    }
}

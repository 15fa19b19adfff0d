//! A page gets a number, and gives it back.
ghost use Rattle.std.specs.Prelude.{◌≡◌, ◌<◌, ◌+◌, ◌≤◌, Err, IfOk};
ghost use Rattle.latch_space.specs.declared.TheConstants.{MAX_HELD};
ghost use Rattle.latch_space.specs.Has.{IsKnown};
ghost use Rattle.latch_space.specs.Passes.{view, count, IsSamePass};
ghost use Rattle.latch_space.specs.Spaces.{IsPassOf};
ghost use Rattle.index_page.specs.Page.{IsNeighbour};
ghost use Rattle.forest_law.specs.State.{fields_for};
ghost use Rattle.forest_world.specs.Held.{shape_of_pass};
ghost use Rattle.call_law.specs.Hands.{HoldsNoOutside, HoldsNoTable};
ghost use Rattle.buffer_pool.specs.declared.error.PoolError.TheVariants as refused;
ghost use Rattle.buffer_pool.specs.Calls.{GetsNothing};
ghost use Rattle.buffer_pool.specs.Forests.{IsForest, IsFittedTree};
ghost use Rattle.buffer_pool.specs.NewPages.{HoldsOutsidePage, outside_page};
ghost use Rattle.buffer_pool.specs.NewPages.{GetsPage, FindsNoneFree, FreesPage};

use crate::error::PoolError;
use crate::frames::give_back;
use crate::free_numbers::hold_room;
use crate::parts::unhash_block;
use crate::placing::{bring, drop_page};
use crate::pools::{give_pool_back, take_pool};
use forest_world::{ForestPass, ForestSpace, fits};
use index_page::{Page, PageHead};
use std::alloc::Global;
use std::sync::Wait;

/// A new empty page with this head, outside the trees, which is held from now on; the answer is the
/// block that has it in its frame. It gets the lowest number that is free while the pool is held,
/// whatever number and left neighbour the head names, and has itself as its left neighbour.
/// `SpaceFull` comes where the pool, as it was held, has none, and that is said at the list of the
/// head's index.
pub fn new_page<R: Wait>(
    alloc: Global,
    space: &ForestSpace,
    pass: &mut ForestPass,
    head: PageHead,
    wait: &R,
) -> Result<u32, PoolError>
    requires own { IsForest space.now × IsPassOf space.now pass.old }
    requires index { head.index < (shape_of_pass pass.old).indexes }
    requires fields { head.fields ≡ fields_for (shape_of_pass pass.old) head.index }
    requires next { IsNeighbour head.next }
    requires known { IsKnown pass.old }
    requires inside { HoldsNoOutside (view pass.old) }
    requires tables { HoldsNoTable (view pass.old) }
    requires room { count pass.old + 3 ≤ MAX_HELD }
    ensures own { IsSamePass pass.old pass.new × IsPassOf space.now pass.new }
    ensures ok { IfOk result (λ b. GetsPage pass.old head b pass.new) }
    ensures full { result ≡ Err refused.SpaceFull
        → FindsNoneFree pass.old head.index pass.new }
    ensures memory { result ≡ Err refused.NoMemory → GetsNothing pass.old pass.new }
    ensures fits { IsFittedTree (view pass.new) }
{
    fits(pass);
    let Ok(mut page) = Page::empty(alloc, own_head(head, 0)) else {
        return Err(PoolError::NoMemory);
    };
    let (number, block) = hold_room(space, pass, head.index, wait)?;
    page.restart(own_head(head, number));
    bring(space, pass, block, page);
    give_pool_back(space, pass);
    Ok(block)
}

/// Gives the number of an empty page outside the trees back, and its frame without it. The frame's
/// clock rises.
pub fn free_page<R: Wait>(space: &ForestSpace, pass: &mut ForestPass, block: u32, wait: &R)
    requires own { IsForest space.now × IsPassOf space.now pass.old }
    requires held { HoldsOutsidePage (view pass.old) block }
    requires known { IsKnown pass.old }
    requires tables { HoldsNoTable (view pass.old) }
    requires room { count pass.old < MAX_HELD }
    ensures own { IsSamePass pass.old pass.new × IsPassOf space.now pass.new }
    ensures freed { FreesPage pass.old block pass.new }
    ensures fits { IsFittedTree (view pass.new) }
{
    unhash_block(space, pass, block, wait);
    take_pool(space, pass, wait);
    drop_page(space, pass, block);
    give_pool_back(space, pass);
    give_back(space, pass, block);
}

// The head of a page outside the trees with this number.
fn own_head(head: PageHead, number: u32) -> PageHead
    ensures { result ≡ (outside_page head number).head }
{
    let mut own = head;
    own.number = number;
    own.prev = Some(number);
    own
}

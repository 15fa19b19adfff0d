//! A page comes to a frame in hand, or goes from it, while the pool is in hand.
ghost use Rattle.std.specs.Prelude.{◌≡◌, ◌<◌, Some, length};
ghost use Rattle.latch_space.specs.Has.{IsKnown};
ghost use Rattle.latch_space.specs.Passes.{view, IsSamePass};
ghost use Rattle.latch_space.specs.Spaces.{IsPassOf};
ghost use Rattle.index_page.specs.Page.{PageRows};
ghost use Rattle.forest_law.specs.declared.objects.Frame.{Frame};
ghost use Rattle.forest_law.specs.declared.objects.Object.{Object};
ghost use Rattle.forest_law.specs.declared.objects.Pool.{Pool};
ghost use Rattle.forest_law.specs.Numbers.{frames_of};
ghost use Rattle.forest_world.specs.Held.{shape_of_pass};
ghost use Rattle.buffer_pool.specs.Forests.{IsForest, IsFittedTree};
ghost use Rattle.buffer_pool.specs.Tries.{KnowsPool, HoldsPoolAndFrame};
ghost use Rattle.buffer_pool.specs.Turning.{SetsAge, MayRestore, RestoresTo, MayBring, BringsTo};
ghost use Rattle.buffer_pool.specs.Turning.{MayFree, FreesFrom, HasPlaces, ClearsFrame};

use crate::ages::{forget_age, touch};
use crate::hands::frame_out;
use crate::pools::{pool_back, pool_out};
use crate::turning::{load, put_page, set_page, turn, unload};
use forest_world::{
    ForestPass, ForestSpace, Frame, Pool, Stored, Where, fits, hands_keep_the_hash,
};
use index_page::Page;

/// The block gets a new age.
pub(crate) fn set_age(space: &ForestSpace, pass: &mut ForestPass, block: u32)
    requires own { IsForest space.now × IsPassOf space.now pass.old }
    requires there { block < frames_of (shape_of_pass pass.old) }
    requires known { IsKnown pass.old }
    requires pool { (t : Object) × (x : Pool) × KnowsPool (view pass.old) t x }
    ensures own { IsSamePass pass.old pass.new × IsPassOf space.now pass.new }
    ensures aged { (t : Object) (x : Pool) → KnowsPool (view pass.old) t x
        → SetsAge pass.old block t x pass.new }
    ensures fits { IsFittedTree (view pass.new) }
{
    fits(pass);
    hands_keep_the_hash();
    let mut pool = pool_out(space, pass);
    touch(&mut pool, block);
    pool_back(space, pass, pool);
    space.settle(pass);
}

/// The page of the number comes from its image to the block's frame, with its bounds.
pub(crate) fn restore(space: &ForestSpace, pass: &mut ForestPass, block: u32, page: u32)
    requires own { IsForest space.now × IsPassOf space.now pass.old }
    requires may { MayRestore pass.old block page }
    ensures own { IsSamePass pass.old pass.new × IsPassOf space.now pass.new }
    ensures restored { (t : Object) (x : Pool) (f : Frame)
        → HoldsPoolAndFrame pass.old block t x f → RestoresTo pass.old block page t x pass.new }
    ensures fits { IsFittedTree (view pass.new) }
{
    fits(pass);
    let mut frame = frame_out(space, pass, block);
    let mut pool = pool_out(space, pass);
    let Some(stored) = put_page(&mut pool, page, Where::InFrame(block), None) else {
        unreachable!()
    };
    touch(&mut pool, block);
    load(&mut frame, stored);
    turn(space, pass, block, frame, pool);
}

/// A page outside the trees comes to the block's frame, under its number, which was free.
pub(crate) fn bring(space: &ForestSpace, pass: &mut ForestPass, block: u32, page: Page)
    requires own { IsForest space.now × IsPassOf space.now pass.old }
    requires may { MayBring pass.old block page }
    ensures own { IsSamePass pass.old pass.new × IsPassOf space.now pass.new }
    ensures brought { (t : Object) (x : Pool) (f : Frame) → HoldsPoolAndFrame pass.old block t x f
        → BringsTo pass.old block page t x pass.new }
    ensures fits { IsFittedTree (view pass.new) }
{
    fits(pass);
    let number = page.head().number;
    let stored = Stored {
        page,
        low: None,
        high: None,
    };
    let mut frame = frame_out(space, pass, block);
    let mut pool = pool_out(space, pass);
    set_page(&mut pool, number, Where::InFrame(block), None);
    touch(&mut pool, block);
    load(&mut frame, stored);
    turn(space, pass, block, frame, pool);
}

/// The page of the block's frame, which is outside the trees, is gone, and its number is free.
pub(crate) fn drop_page(space: &ForestSpace, pass: &mut ForestPass, block: u32)
    requires own { IsForest space.now × IsPassOf space.now pass.old }
    requires may { (page : PageRows) × MayFree pass.old block page }
    ensures own { IsSamePass pass.old pass.new × IsPassOf space.now pass.new }
    ensures freed { (page : PageRows) (t : Object) (x : Pool) (f : Frame)
        → HoldsPoolAndFrame pass.old block t x f → f.page ≡ Some page
        → FreesFrom pass.old block page.head.number t x f pass.new }
    ensures fits { IsFittedTree (view pass.new) }
{
    fits(pass);
    let mut frame = frame_out(space, pass, block);
    let mut pool = pool_out(space, pass);
    clear(&mut frame, &mut pool, block);
    turn(space, pass, block, frame, pool);
}

// The page of the block's frame is gone, its number is free, and the block's age is 0.
fn clear(frame: &mut Frame, pool: &mut Pool, block: u32)
    requires places { HasPlaces frame.old pool.old }
    requires age { block < length pool.old.ages }
    ensures { ClearsFrame frame.old pool.old block frame.new pool.new }
{
    let stored = unload(frame);
    let number = stored.page.head().number;
    drop(stored);
    set_page(pool, number, Where::Free, None);
    forget_age(pool, block);
}

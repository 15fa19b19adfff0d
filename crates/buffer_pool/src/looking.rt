//! One look at the pool for a page. Nothing is waited for while the pool is held.
ghost use Rattle.std.specs.Prelude.{◌≡◌, ◌<◌, ◌+◌, ◌≤◌, length};
ghost use Rattle.latch_space.specs.declared.TheConstants.{MAX_HELD};
ghost use Rattle.latch_space.specs.Has.{IsKnown};
ghost use Rattle.latch_space.specs.Passes.{view, count, IsSamePass};
ghost use Rattle.latch_space.specs.Spaces.{IsPassOf};
ghost use Rattle.forest_law.specs.declared.objects.Object.{Object};
ghost use Rattle.forest_law.specs.declared.objects.Pool.{Pool};
ghost use Rattle.forest_law.specs.declared.objects.Where.TheVariants as place;
ghost use Rattle.forest_law.specs.State.{where_at};
ghost use Rattle.forest_world.specs.Held.{shape_of_pass};
ghost use Rattle.call_law.specs.Hands.{HoldsNoPart, HoldsNoTable};
ghost use Rattle.buffer_pool.specs.Forests.{IsForest, IsFittedTree};
ghost use Rattle.buffer_pool.specs.Looking.{TellsLook, TellsLookFor};
ghost use Rattle.buffer_pool.specs.Pages.{HoldsOtherPages};
ghost use Rattle.buffer_pool.specs.Tries.{KnowsPool};

use crate::frames::try_frame;
use crate::placing::{restore, set_age};
use crate::pools::{give_pool_back, pool, take_pool};
use crate::victims::make_room;
use forest_world::{ForestPass, ForestSpace, Pool, Where, fits};
use latch_space::Take;
use std::sync::Wait;

/// What a look at the pool for a page found.
#[derive(Clone, Copy)]
pub(crate) enum Looked {
    /// The page, which is held now in this block's frame.
    Held(u32),
    /// A frame that has the page, and was another's.
    Busy,
    /// The page's image, and no frame to which it could come.
    NoRoom,
    /// No page of the number.
    Free,
}

/// One look at the pool: where the page is in a frame, that is tried once; where it is an image, it
/// comes to a frame.
pub(crate) fn look_for<R: Wait>(
    space: &ForestSpace,
    pass: &mut ForestPass,
    page: u32,
    wait: &R,
) -> Looked
    requires own { IsForest space.now × IsPassOf space.now pass.old }
    requires there { page < (shape_of_pass pass.old).pages }
    requires known { IsKnown pass.old }
    requires others { HoldsOtherPages (view pass.old) page }
    requires tables { HoldsNoTable (view pass.old) }
    requires room { count pass.old + 3 ≤ MAX_HELD }
    ensures own { IsSamePass pass.old pass.new × IsPassOf space.now pass.new }
    ensures did { TellsLookFor pass.old page result pass.new }
    ensures fits { IsFittedTree (view pass.new) }
{
    take_pool(space, pass, wait);
    let found = find_page(space, pass, page, wait);
    give_pool_back(space, pass);
    found
}

// The same with the pool in hand.
fn find_page<R: Wait>(space: &ForestSpace, pass: &mut ForestPass, page: u32, wait: &R) -> Looked
    requires own { IsForest space.now × IsPassOf space.now pass.old }
    requires there { page < (shape_of_pass pass.old).pages }
    requires known { IsKnown pass.old }
    requires others { HoldsOtherPages (view pass.old) page }
    requires pool { (t : Object) × (x : Pool) × KnowsPool (view pass.old) t x }
    requires parts { HoldsNoPart (view pass.old) }
    requires room { count pass.old + 2 ≤ MAX_HELD }
    ensures own { IsSamePass pass.old pass.new × IsPassOf space.now pass.new }
    ensures did { (t : Object) (x : Pool) → KnowsPool (view pass.old) t x
        → TellsLook pass.old t x page result pass.new }
    ensures fits { IsFittedTree (view pass.new) }
{
    fits(pass);
    match place_of(pool(space, pass), page) {
        Where::Free => Looked::Free,
        Where::InFrame(block) => hold_named(space, pass, page, block),
        Where::Image => hold_image(space, pass, page, wait),
    }
}

// Where the page is.
fn place_of(pool: &Pool, page: u32) -> Where
    requires { page < length pool.now.place.items }
    ensures { result ≡ where_at pool.now.place.items page }
{
    pool.place[page as usize]
}

// One try of the block's frame, which has the page.
fn hold_named(space: &ForestSpace, pass: &mut ForestPass, page: u32, block: u32) -> Looked
    requires own { IsForest space.now × IsPassOf space.now pass.old }
    requires known { IsKnown pass.old }
    requires others { HoldsOtherPages (view pass.old) page }
    requires pool { (t : Object) × (x : Pool) × KnowsPool (view pass.old) t x
        × (where_at x.place.items page ≡ place.InFrame block) }
    requires room { count pass.old < MAX_HELD }
    ensures own { IsSamePass pass.old pass.new × IsPassOf space.now pass.new }
    ensures did { (t : Object) (x : Pool) → KnowsPool (view pass.old) t x
        → TellsLook pass.old t x page result pass.new }
    ensures fits { IsFittedTree (view pass.new) }
{
    fits(pass);
    match try_frame(space, pass, block) {
        Take::Taken => {
            set_age(space, pass, block);
            Looked::Held(block)
        }
        Take::Busy { .. } => Looked::Busy,
    }
}

// The page comes from its image to a frame, where one can be had.
fn hold_image<R: Wait>(space: &ForestSpace, pass: &mut ForestPass, page: u32, wait: &R) -> Looked
    requires own { IsForest space.now × IsPassOf space.now pass.old }
    requires known { IsKnown pass.old }
    requires pool { (t : Object) × (x : Pool) × KnowsPool (view pass.old) t x
        × (where_at x.place.items page ≡ place.Image) }
    requires parts { HoldsNoPart (view pass.old) }
    requires room { count pass.old + 2 ≤ MAX_HELD }
    ensures own { IsSamePass pass.old pass.new × IsPassOf space.now pass.new }
    ensures did { (t : Object) (x : Pool) → KnowsPool (view pass.old) t x
        → TellsLook pass.old t x page result pass.new }
    ensures fits { IsFittedTree (view pass.new) }
{
    let Some(block) = make_room(space, pass, wait) else {
        return Looked::NoRoom;
    };
    restore(space, pass, block, page);
    Looked::Held(block)
}

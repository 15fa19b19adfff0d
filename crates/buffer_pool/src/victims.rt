//! Room for a page: the frame of the lowest age that one try takes, without its page.
ghost use Rattle.std.specs.Prelude.{◌≡◌, ◌<◌, ◌+◌, ◌≤◌, Some, is_some};
ghost use Rattle.latch_space.specs.declared.TheConstants.{MAX_HELD};
ghost use Rattle.latch_space.specs.Has.{IsKnown};
ghost use Rattle.latch_space.specs.Passes.{view, count, IsSamePass};
ghost use Rattle.latch_space.specs.Spaces.{IsPassOf};
ghost use Rattle.index_page.specs.Page.{PageRows};
ghost use Rattle.forest_law.specs.declared.objects.Frame.{Frame};
ghost use Rattle.forest_law.specs.declared.objects.Object.{Object};
ghost use Rattle.forest_law.specs.declared.objects.Pool.{Pool};
ghost use Rattle.forest_law.specs.Numbers.{frames_of};
ghost use Rattle.forest_law.specs.Outside.{HasNoOutside};
ghost use Rattle.forest_world.specs.Held.{shape_of_pass};
ghost use Rattle.call_law.specs.Hands.{HoldsNoPart};
ghost use Rattle.buffer_pool.specs.Forests.{IsForest, IsFittedTree};
ghost use Rattle.buffer_pool.specs.Tries.{KnowsPool, HoldsPoolAndFrame};
ghost use Rattle.buffer_pool.specs.Turning.{EmptiesFrame, HasPlaces, SetsAside};
ghost use Rattle.buffer_pool.specs.Victims.{TellsOther, TellsVictim, TellsRoomFor};

use crate::frames::{holds_frame, try_frame};
use crate::hands::{frame, frame_out};
use crate::parts::unhash_block;
use crate::pools::{pool, pool_out};
use crate::turning::{set_page, turn, unload};
use forest_world::{ForestPass, ForestSpace, Frame, Pool, Where, fits};
use latch_space::Take;
use std::sync::Wait;

/// Holds the frame of the lowest age that one try takes, and of equal ages that of the lowest
/// block, and sees to it that it has no page: its page goes to its image. Frames that the pass
/// holds are passed over. The pool is held, so nothing is waited for.
pub(crate) fn make_room<R: Wait>(
    space: &ForestSpace,
    pass: &mut ForestPass,
    wait: &R,
) -> Option<u32>
    requires own { IsForest space.now × IsPassOf space.now pass.old }
    requires known { IsKnown pass.old }
    requires pool { (t : Object) × (x : Pool) × KnowsPool (view pass.old) t x }
    requires parts { HoldsNoPart (view pass.old) }
    requires room { count pass.old + 2 ≤ MAX_HELD }
    ensures own { IsSamePass pass.old pass.new × IsPassOf space.now pass.new }
    ensures did { (t : Object) (x : Pool) → KnowsPool (view pass.old) t x
        → TellsRoomFor pass.old t x result pass.new }
    ensures fits { IsFittedTree (view pass.new) }
{
    let Some(block) = try_victim(space, pass) else {
        return None;
    };
    empty_frame(space, pass, block, wait);
    Some(block)
}

// Holds the first frame, by age and then by number, that one try takes.
fn try_victim(space: &ForestSpace, pass: &mut ForestPass) -> Option<u32>
    requires own { IsForest space.now × IsPassOf space.now pass.old }
    requires known { IsKnown pass.old }
    requires pool { (t : Object) × (x : Pool) × KnowsPool (view pass.old) t x }
    requires room { count pass.old < MAX_HELD }
    ensures own { IsSamePass pass.old pass.new × IsPassOf space.now pass.new }
    ensures did { (t : Object) (x : Pool) → KnowsPool (view pass.old) t x
        → TellsVictim pass.old x result pass.new }
    ensures fits { IsFittedTree (view pass.new) }
{
    fits(pass);
    let mut last: Option<u32> = None;
    for _i in 0..pool(space, pass).ages.len() {
        let Some(block) = pool(space, pass).ages.next(last) else {
            return None;
        };
        if try_other(space, pass, block) {
            return Some(block);
        }
        last = Some(block);
    }
    None
}

// One try of the block's frame, unless the pass holds it.
fn try_other(space: &ForestSpace, pass: &mut ForestPass, block: u32) -> bool
    requires own { IsForest space.now × IsPassOf space.now pass.old }
    requires there { block < frames_of (shape_of_pass pass.old) }
    requires known { IsKnown pass.old }
    requires room { count pass.old < MAX_HELD }
    ensures own { IsSamePass pass.old pass.new × IsPassOf space.now pass.new }
    ensures did { TellsOther pass.old block result pass.new }
    ensures fits { IsFittedTree (view pass.new) }
{
    if holds_frame(space, pass, block) {
        fits(pass);
        return false;
    }
    match try_frame(space, pass, block) {
        Take::Taken => true,
        Take::Busy { .. } => false,
    }
}

// The page of the block's frame, if it has one, goes to its image.
fn empty_frame<R: Wait>(space: &ForestSpace, pass: &mut ForestPass, block: u32, wait: &R)
    requires own { IsForest space.now × IsPassOf space.now pass.old }
    requires both { (t : Object) × (x : Pool) × (f : Frame)
        × HoldsPoolAndFrame pass.old block t x f × HasNoOutside f }
    requires parts { HoldsNoPart (view pass.old) }
    requires room { count pass.old < MAX_HELD }
    ensures own { IsSamePass pass.old pass.new × IsPassOf space.now pass.new }
    ensures empty { (t : Object) (x : Pool) (f : Frame) → HoldsPoolAndFrame pass.old block t x f
        → EmptiesFrame pass.old block t x pass.new }
    ensures fits { IsFittedTree (view pass.new) }
{
    fits(pass);
    if !has_page(frame(space, pass, block)) {
        return;
    }
    evict(space, pass, block, wait);
}

// Whether the frame has a page.
fn has_page(frame: &Frame) -> bool
    ensures { result ≡ is_some frame.now.page }
{
    frame.page.is_some()
}

// The page of the block's frame goes to its image, with its bounds. Its nodes leave the hash first.
fn evict<R: Wait>(space: &ForestSpace, pass: &mut ForestPass, block: u32, wait: &R)
    requires own { IsForest space.now × IsPassOf space.now pass.old }
    requires both { (t : Object) × (x : Pool) × (f : Frame) × (page : PageRows)
        × HoldsPoolAndFrame pass.old block t x f × (f.page ≡ Some page) × HasNoOutside f }
    requires parts { HoldsNoPart (view pass.old) }
    requires room { count pass.old < MAX_HELD }
    ensures own { IsSamePass pass.old pass.new × IsPassOf space.now pass.new }
    ensures empty { (t : Object) (x : Pool) (f : Frame) → HoldsPoolAndFrame pass.old block t x f
        → EmptiesFrame pass.old block t x pass.new }
    ensures fits { IsFittedTree (view pass.new) }
{
    fits(pass);
    unhash_block(space, pass, block, wait);
    let mut frame = frame_out(space, pass, block);
    let mut pool = pool_out(space, pass);
    set_aside(&mut frame, &mut pool);
    turn(space, pass, block, frame, pool);
}

// What is in the frame becomes an image.
fn set_aside(frame: &mut Frame, pool: &mut Pool)
    requires { HasPlaces frame.old pool.old }
    ensures { SetsAside frame.old pool.old frame.new pool.new }
{
    let stored = unload(frame);
    let number = stored.page.head().number;
    set_page(pool, number, Where::Image, Some(stored));
}

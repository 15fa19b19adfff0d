//! A page comes to a frame or goes from it, with the pool in hand: what becomes of both, and the
//! step.
ghost use Rattle.std.specs.Prelude.{◌≡◌, ◌<◌, Some, length};
ghost use Rattle.latch_space.specs.Passes.{view, IsSamePass};
ghost use Rattle.latch_space.specs.Spaces.{IsPassOf};
ghost use Rattle.index_page.specs.Page.{PageRows};
ghost use Rattle.forest_law.specs.State.{image_at};
ghost use Rattle.buffer_pool.specs.Forests.{IsForest, IsFittedTree};
ghost use Rattle.buffer_pool.specs.Turning.{PutsPage, UnloadsFrame, loaded_with, MayTurn, TurnsBack};

use crate::hands::frame_back;
use crate::pools::pool_back;
use forest_world::{ForestPass, ForestSpace, Frame, Pool, Stored, Where, hands_keep_the_hash};
use learning::BlockFigures;
use std::mem;

/// The frame and the pool, which were taken out, come back as these, and that is made known.
pub(crate) fn turn(space: &ForestSpace, pass: &mut ForestPass, block: u32, frame: Frame, pool: Pool)
    requires own { IsForest space.now × IsPassOf space.now pass.old }
    requires may { MayTurn pass.old block frame pool }
    ensures own { IsSamePass pass.old pass.new × IsPassOf space.now pass.new }
    ensures turned { TurnsBack pass.old block frame pool pass.new }
    ensures fits { IsFittedTree (view pass.new) }
{
    hands_keep_the_hash();
    frame_back(space, pass, block, frame);
    pool_back(space, pass, pool);
    space.settle(pass);
}

/// The page of the number has this place and this image from now on; the answer is the image that
/// it had.
pub(crate) fn put_page(
    pool: &mut Pool,
    number: u32,
    to: Where,
    image: Option<Stored>,
) -> Option<Stored>
    requires place { number < length pool.old.place.items }
    requires image { number < length pool.old.images.items }
    ensures puts { PutsPage pool.old number to image pool.new }
    ensures had { result ≡ image_at pool.old.images.items number }
{
    pool.place[number as usize] = to;
    mem::replace(&mut pool.images[number as usize], image)
}

/// The same where the image that it had isn't wanted.
pub(crate) fn set_page(pool: &mut Pool, number: u32, to: Where, image: Option<Stored>)
    requires place { number < length pool.old.place.items }
    requires image { number < length pool.old.images.items }
    ensures { PutsPage pool.old number to image pool.new }
{
    drop(put_page(pool, number, to, image));
}

/// The frame loses its page and its bounds, at a clock that rises; the answer is these.
pub(crate) fn unload(frame: &mut Frame) -> Stored
    requires { (page : PageRows) × (frame.old.page ≡ Some page) }
    ensures { UnloadsFrame frame.old result frame.new }
{
    // the proof speaks of the clock that the frame has here
    let _before = frame.clock;
    let Some(page) = frame.page.take() else {
        unreachable!()
    };
    let low = frame.low.take();
    let high = frame.high.take();
    frame.raise_clock();
    Stored { page, low, high }
}

/// The frame gets this page in these bounds, and the figures that a block begins with.
pub(crate) fn load(frame: &mut Frame, stored: Stored)
    ensures { frame.new ≡ loaded_with frame.old stored }
{
    frame.page = Some(stored.page);
    frame.low = stored.low;
    frame.high = stored.high;
    frame.figures = BlockFigures::opening();
}

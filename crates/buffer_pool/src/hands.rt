//! A frame in hand is looked at, and changed.
ghost use Rattle.std.specs.Prelude.{◌≡◌};
ghost use Rattle.latch_space.specs.Passes.{IsSamePass};
ghost use Rattle.latch_space.specs.Spaces.{IsPassOf};
ghost use Rattle.forest_law.specs.declared.objects.Frame.{Frame};
ghost use Rattle.forest_law.specs.declared.objects.Object.TheVariants as object;
ghost use Rattle.forest_world.specs.Held.{HasFrame};
ghost use Rattle.buffer_pool.specs.Forests.{IsForest};
ghost use Rattle.buffer_pool.specs.Frames.{TakesOut, PutsBack};
ghost use Rattle.buffer_pool.specs.Hands.{HoldsFrame, HasOut};

use crate::numbers::frame_number;
use forest_world::{ForestPass, ForestSpace, Frame, Object};

/// The block's frame as it stands now.
pub fn frame<'p>(space: &ForestSpace, pass: &'p ForestPass, block: u32) -> &'p Frame
    requires own { IsForest space.now × IsPassOf space.now pass.now }
    requires held { HoldsFrame pass.now block }
    ensures { (f g : Frame) → HasFrame pass.now block f g → result.now ≡ g }
{
    as_frame(pass.look(frame_number(space, pass, block)))
}

/// The block's frame itself. Its place in hand stays empty until `frame_back`.
pub fn frame_out(space: &ForestSpace, pass: &mut ForestPass, block: u32) -> Frame
    requires own { IsForest space.now × IsPassOf space.now pass.old }
    requires held { HoldsFrame pass.old block }
    ensures own { IsSamePass pass.old pass.new × IsPassOf space.now pass.new }
    ensures out { TakesOut pass.old block result pass.new }
{
    let number = frame_number(space, pass, block);
    into_frame(pass.take_out(number))
}

/// Puts a frame into the place of the block's, which was taken out.
pub fn frame_back(space: &ForestSpace, pass: &mut ForestPass, block: u32, frame: Frame)
    requires own { IsForest space.now × IsPassOf space.now pass.old }
    requires out { (f : Frame) × HasOut pass.old block f }
    ensures own { IsSamePass pass.old pass.new × IsPassOf space.now pass.new }
    ensures back { PutsBack pass.old block frame pass.new }
{
    let number = frame_number(space, pass, block);
    pass.put_back(number, Object::Frame(frame));
}

// The frame that an object is.
fn as_frame(found: &Object) -> &Frame
    requires { (f : Frame) × (found.now ≡ object.Frame f) }
    ensures { found.now ≡ object.Frame result.now }
{
    match found {
        Object::Frame(frame) => frame,
        _ => unreachable!(),
    }
}

// The same, by value.
fn into_frame(found: Object) -> Frame
    requires { (f : Frame) × (found ≡ object.Frame f) }
    ensures { found ≡ object.Frame result }
{
    match found {
        Object::Frame(frame) => frame,
        _ => unreachable!(),
    }
}

//! The leaf in hand is looked at and given back.
ghost use Rattle.std.specs.Prelude.{◌≡◌};
ghost use Rattle.latch_space.specs.Passes.{count, IsSamePass};
ghost use Rattle.latch_space.specs.Spaces.{IsPassOf};
ghost use Rattle.forest_law.specs.declared.objects.Frame.{Frame};
ghost use Rattle.forest_world.specs.Held.{HasFrame};
ghost use Rattle.buffer_pool.specs.Frames.{GivesFrame};
ghost use Rattle.buffer_pool.specs.Hands.{HoldsFrame};
ghost use Rattle.leaf_changes.specs.Holds.{HoldsKnown};

use crate::tree_call::TreeCall;
use buffer_pool::{frame, give_back};
use forest_world::{ForestPass, Frame};

impl<R> TreeCall<'_, R> {
    /// The frame that is held, as it stands now.
    pub fn frame<'p>(&self, pass: &'p ForestPass, block: u32) -> &'p Frame
        requires own { IsPassOf self.now.space.now pass.now }
        requires held { HoldsFrame pass.now block }
        ensures { (f g : Frame) → HasFrame pass.now block f g → result.now ≡ g }
    {
        frame(self.space, pass, block)
    }

    /// Gives the leaf back, which is what it is known to be.
    pub fn let_go(&self, pass: &mut ForestPass, block: u32)
        requires own { IsPassOf self.now.space.now pass.old }
        requires held { HoldsKnown pass.old block }
        ensures own { IsSamePass pass.old pass.new × IsPassOf self.now.space.now pass.new }
        ensures nothing { count pass.new ≡ 0 }
        ensures gave { GivesFrame pass.old block pass.new }
    {
        give_back(self.space, pass, block);
    }
}

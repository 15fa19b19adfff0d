//! The frames of a parent and of two halves, as plain values.
ghost use Rattle.std.specs.Prelude.{◌≡◌, OnOk, OnErr};
ghost use Rattle.latch_space.specs.Has.{IsKnown};
ghost use Rattle.latch_space.specs.Passes.{IsSamePass};
ghost use Rattle.latch_space.specs.Spaces.{IsPassOf};
ghost use Rattle.buffer_pool.specs.Forests.{IsForest};
ghost use Rattle.tree_smo.specs.Halves.{HoldsHalves, LacksHalves, TakesHalvesOut};
ghost use Rattle.tree_smo.specs.Halves.{PutsHalvesBack, SuitsHalves, ChangesHalves};
ghost use Rattle.tree_smo.specs.Remakes.{IsAsBefore};

use buffer_pool::{frame_back, frame_out};
use forest_world::{ForestPass, ForestSpace, Frame};
use index_page::PageError;
use key_tuple::NoMemory;
use tree_restructure::{Cut, split_frames};

/// The blocks of a parent and of two halves.
#[derive(Clone, Copy)]
pub struct SplitBlocks {
    /// That of the parent.
    pub parent: u32,
    /// That of the page that is split.
    pub child: u32,
    /// That of the right half.
    pub right: u32,
}

/// Their frames.
#[derive(Drop)]
pub struct SplitHands {
    /// That of the left half.
    pub left: Frame,
    /// That of the right half.
    pub right: Frame,
    /// That of the parent.
    pub up: Frame,
}

/// Splits the frames in hand at a cut that `find_cut` told. After `NoMemory` they are as before.
pub(crate) fn change_halves(
    space: &ForestSpace,
    pass: &mut ForestPass,
    at: SplitBlocks,
    cut: Cut,
) -> Result<(), NoMemory>
    requires own { IsForest space.now × IsPassOf space.now pass.old }
    requires suits { SuitsHalves pass.old at cut }
    requires known { IsKnown pass.old }
    ensures own { IsSamePass pass.old pass.new × IsPassOf space.now pass.new }
    ensures ok { OnOk result (ChangesHalves pass.old at cut.key.tuple pass.new) }
    ensures err { OnErr result (IsAsBefore pass.old pass.new) }
{
    let mut hands = halves_out(space, pass, at);
    let outcome = split_frames(&mut hands.left, &mut hands.right, &mut hands.up, cut);
    halves_back(space, pass, at, hands);
    match outcome {
        Ok(()) => Ok(()),
        Err(e) => Err(want_of_memory(e)),
    }
}

/// What a split is refused for, where the parent has room for its pointer.
fn want_of_memory(refusal: PageError) -> NoMemory
    requires { refusal ≡ PageError.NoMemory }
{
    match refusal {
        PageError::NoMemory => NoMemory,
        _ => unreachable!(),
    }
}

/// Takes the three frames out of their places.
pub fn halves_out(space: &ForestSpace, pass: &mut ForestPass, at: SplitBlocks) -> SplitHands
    requires own { IsForest space.now × IsPassOf space.now pass.old }
    requires held { HoldsHalves pass.old at }
    ensures own { IsSamePass pass.old pass.new × IsPassOf space.now pass.new }
    ensures out { TakesHalvesOut pass.old at result pass.new }
{
    let up = frame_out(space, pass, at.parent);
    let left = frame_out(space, pass, at.child);
    let right = frame_out(space, pass, at.right);
    SplitHands { left, right, up }
}

/// Puts three frames into these places.
pub fn halves_back(space: &ForestSpace, pass: &mut ForestPass, at: SplitBlocks, hands: SplitHands)
    requires own { IsForest space.now × IsPassOf space.now pass.old }
    requires out { LacksHalves pass.old at }
    ensures own { IsSamePass pass.old pass.new × IsPassOf space.now pass.new }
    ensures back { PutsHalvesBack pass.old at hands pass.new }
{
    frame_back(space, pass, at.parent, hands.up);
    frame_back(space, pass, at.child, hands.left);
    frame_back(space, pass, at.right, hands.right);
}

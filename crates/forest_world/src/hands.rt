//! Laws of what a pass has in hand.
ghost use Rattle.forest_world.specs.HashHands.{HandsKeepTheHash};
ghost use Rattle.forest_world.specs.HandLaws.{HandsMakeSteps, HandsChangeThePool, KnownIsAtRest};

use forest_law::blocks_ask_the_same;

/// What a pass has made of the frames and trees in hand is a step of the law.
pub fn hands_make_steps()
    ensures { HandsMakeSteps }
{}

/// What a pass has made of the pool and of a frame in hand is a step of the law.
pub fn hands_change_the_pool()
    ensures { HandsChangeThePool }
{}

/// What is known to be as it is plays no part in a step.
pub fn known_is_at_rest()
    ensures { KnownIsAtRest }
{}

/// What a pass has in hand keeps the hash exact where the hash rests there, and where a partition in
/// hand keeps up with some blocks.
pub fn hands_keep_the_hash()
    ensures { HandsKeepTheHash }
{
    blocks_ask_the_same();
}

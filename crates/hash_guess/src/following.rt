//! From a node to the frame with the row that it names.
ghost use Rattle.std.specs.Prelude.{◌≡◌, ◌<◌, ℕ, []};
ghost use Rattle.latch_space.specs.declared.TheConstants.{MAX_HELD};
ghost use Rattle.latch_space.specs.declared.taking.Take.TheVariants.{Taken, Busy};
ghost use Rattle.latch_space.specs.Has.{IsKnown};
ghost use Rattle.latch_space.specs.Passes.{view, count, IsSamePass};
ghost use Rattle.latch_space.specs.Spaces.{IsPassOf};
ghost use Rattle.call_law.specs.Hands.{HoldsNoFrameBut};
ghost use Rattle.buffer_pool.specs.Forests.{IsForest};
ghost use Rattle.hash_guess.specs.Follows.{HasNodeInHand, FindsBusy, FollowsTo};

use buffer_pool::try_frame;
use chain_arena::Node;
use forest_law::nodes_lead_to_frames;
use forest_world::{ForestPass, ForestSpace, fits, shape};
use hash_maintain::give_part_back;
use latch_space::Take;

/// Tries the frame of a node's block by one try, while the partition of the index that has the node is
/// held, and gives that back. The frame is held then, or another pass had it.
pub(crate) fn follow(space: &ForestSpace, pass: &mut ForestPass, index: u32, node: &Node) -> Take
    requires own { IsForest space.now × IsPassOf space.now pass.old }
    requires known { IsKnown pass.old }
    requires node { HasNodeInHand pass.old index node.now }
    requires frames { HoldsNoFrameBut (view pass.old) [] }
    requires room { count pass.old < MAX_HELD }
    ensures own { IsSamePass pass.old pass.new × IsPassOf space.now pass.new }
    ensures taken { result ≡ Taken → FollowsTo pass.old index node.now pass.new }
    ensures busy { (n : ℕ) → result ≡ Busy n → FindsBusy pass.old index node.now n pass.new }
{
    fits(pass);
    nodes_lead_to_frames();
    let part = shape(space).part_for(index);
    let take = try_frame(space, pass, node.block);
    give_part_back(space, pass, part);
    take
}

//! A descent goes past a tree that another pass has in hand.
ghost use Rattle.std.specs.Prelude.{◌≡◌, ◌<◌, ◌≤◌, length};
ghost use Rattle.latch_space.specs.Passes.{count};
ghost use Rattle.latch_space.specs.Spaces.{IsPassOf};
ghost use Rattle.forest_law.specs.State.{fields_for};
ghost use Rattle.buffer_pool.specs.Forests.{IsForest};

use buffer_pool::{give_back, give_tree_back, take_tree};
use forest_world::{ForestPass, ForestSpace};
use key_tuple::{Key, Mode};
use std::sync::Wait;
use tree_descent::descend;

/// The block that has the key's leaf in its frame, which one pass finds while the other one has the
/// tree.
pub(crate) fn found_meanwhile<R: Wait>(
    space: &ForestSpace,
    pass: &mut ForestPass,
    other: &mut ForestPass,
    key: &Key,
    wait: &R,
) -> u32
    requires forest { IsForest space.now }
    requires own { IsPassOf space.now pass.old }
    requires other { IsPassOf space.now other.old }
    requires there { 0 < space.now.terms.shape.indexes }
    requires fields { length key.now.tuple ≤ fields_for space.now.terms.shape 0 }
    requires nothing { count pass.old ≡ 0 }
    requires none { count other.old ≡ 0 }
    ensures own { IsPassOf space.now pass.new × IsPassOf space.now other.new }
    ensures nothing { (count pass.new ≡ 0) × (count other.new ≡ 0) }
{
    take_tree(space, other, 0, wait);
    let leaf = descend(space, pass, 0, key, Mode::Ge, wait);
    give_back(space, pass, leaf.block);
    give_tree_back(space, other, 0);
    leaf.block
}

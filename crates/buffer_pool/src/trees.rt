//! An index's tree is taken, looked at, changed and given back.
ghost use Rattle.std.specs.Prelude.{◌≡◌, ◌<◌};
ghost use Rattle.latch_space.specs.declared.TheConstants.{MAX_HELD};
ghost use Rattle.latch_space.specs.Passes.{view, count, IsSamePass};
ghost use Rattle.latch_space.specs.Spaces.{IsPassOf};
ghost use Rattle.forest_law.specs.declared.objects.Tree.{Tree};
ghost use Rattle.forest_law.specs.declared.objects.Object.TheVariants as object;
ghost use Rattle.forest_world.specs.Held.{shape_of_pass, HasTree};
ghost use Rattle.buffer_pool.specs.Forests.{IsForest, IsFittedTree};
ghost use Rattle.buffer_pool.specs.Trees.{LacksTree, HoldsTree, HoldsKnownTree};
ghost use Rattle.buffer_pool.specs.Trees.{TakesTree, ChangesTree, GivesTree};

use crate::numbers::tree_number;
use forest_world::{ForestPass, ForestSpace, Object, Tree};
use std::sync::Wait;

/// Tries until the index's tree is taken.
pub fn take_tree<R: Wait>(space: &ForestSpace, pass: &mut ForestPass, index: u32, wait: &R)
    requires own { IsForest space.now × IsPassOf space.now pass.old }
    requires there { index < (shape_of_pass pass.old).indexes }
    requires lacks { LacksTree pass.old index }
    requires room { count pass.old < MAX_HELD }
    ensures own { IsSamePass pass.old pass.new × IsPassOf space.now pass.new }
    ensures took { TakesTree pass.old index pass.new }
    ensures fits { IsFittedTree (view pass.new) }
{
    let number = tree_number(space, pass, index);
    space.take(pass, number, wait);
}

/// The index's tree as it stands now.
pub fn tree(space: &ForestSpace, pass: &ForestPass, index: u32) -> Tree
    requires own { IsForest space.now × IsPassOf space.now pass.now }
    requires there { index < (shape_of_pass pass.now).indexes }
    requires held { HoldsTree pass.now index }
    ensures { (t u : Tree) → HasTree pass.now index t u → result ≡ u }
{
    as_tree(pass.look(tree_number(space, pass, index)))
}

/// The index's tree becomes another.
pub fn change_tree(space: &ForestSpace, pass: &mut ForestPass, index: u32, tree: Tree)
    requires own { IsForest space.now × IsPassOf space.now pass.old }
    requires there { index < (shape_of_pass pass.old).indexes }
    requires held { HoldsTree pass.old index }
    ensures own { IsSamePass pass.old pass.new × IsPassOf space.now pass.new }
    ensures changed { ChangesTree pass.old index tree pass.new }
{
    let number = tree_number(space, pass, index);
    let _old = into_tree(pass.take_out(number));
    pass.put_back(number, Object::Tree(tree));
}

/// Gives the index's tree back, which is what it is known to be.
pub fn give_tree_back(space: &ForestSpace, pass: &mut ForestPass, index: u32)
    requires own { IsForest space.now × IsPassOf space.now pass.old }
    requires there { index < (shape_of_pass pass.old).indexes }
    requires held { HoldsKnownTree pass.old index }
    ensures own { IsSamePass pass.old pass.new × IsPassOf space.now pass.new }
    ensures gave { GivesTree pass.old index pass.new }
    ensures fits { IsFittedTree (view pass.new) }
{
    let number = tree_number(space, pass, index);
    space.release(pass, number);
}

// The tree that an object is.
fn as_tree(found: &Object) -> Tree
    requires { (t : Tree) × (found.now ≡ object.Tree t) }
    ensures { found.now ≡ object.Tree result }
{
    match found {
        Object::Tree(tree) => *tree,
        _ => unreachable!(),
    }
}

// The same, by value.
fn into_tree(found: Object) -> Tree
    requires { (t : Tree) × (found ≡ object.Tree t) }
    ensures { found ≡ object.Tree result }
{
    match found {
        Object::Tree(tree) => tree,
        _ => unreachable!(),
    }
}

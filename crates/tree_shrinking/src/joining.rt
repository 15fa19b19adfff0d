//! A page is merged with one beside it, with the page above in hand.
ghost use Rattle.std.specs.Prelude.{◌≡◌, [], ◌∷◌, Ok, true, false};
ghost use Rattle.key_tuple.specs.declared.mode.Mode.TheVariants as mode;
ghost use Rattle.latch_space.specs.Passes.{view, IsSamePass};
ghost use Rattle.latch_space.specs.Spaces.{IsPassOf};
ghost use Rattle.buffer_pool.specs.Forests.{IsForest, IsFittedTree};
ghost use Rattle.tree_descent.specs.Descents.{HoldsInner};
ghost use Rattle.tree_growth.specs.Ways.{IsGoingDown};
ghost use Rattle.tree_shrinking.specs.Joins.{LeavesPair, LeavesPairIf, LeavesChild, FreesUnder};
ghost use Rattle.tree_shrinking.specs.Pairs.{HoldsAbovePair, HoldsAboveIf, HoldsJoined, ComesBack};

use crate::families::{family_in, siblings_after, siblings_before};
use crate::lifting::lift;
use crate::merging::merge_children;
use crate::pairs::{Pair, Siblings, are_to_join, give_pair_back, take_pair};
use crate::reading::held_page;
use buffer_pool::give_back;
use forest_world::{ForestPass, ForestSpace, fits};
use index_page::loads_add_up;
use key_tuple::{Key, NoMemory};
use std::alloc::Global;
use std::sync::Wait;

/// Merges the child that has the key with the page before it, where it is light and both have room
/// on one page, else with the page after it. Tells whether it did so.
pub(crate) fn join_child<R: Wait>(
    alloc: Global,
    space: &ForestSpace,
    pass: &mut ForestPass,
    parent: u32,
    index: u32,
    key: &Key,
    wait: &R,
) -> Result<bool, NoMemory>
    requires own { IsForest space.now × IsPassOf space.now pass.old }
    requires way { IsGoingDown pass.old index key.now.tuple (parent ∷ []) }
    requires held { HoldsInner (view pass.old) parent index mode.Ge key.now.tuple }
    ensures own { IsSamePass pass.old pass.new × IsPassOf space.now pass.new }
    ensures back { ComesBack pass.old parent index key.now.tuple pass.new }
    ensures apart { result ≡ Ok false
        → (held : HoldsInner (view pass.old) parent index mode.Ge key.now.tuple)
        → LeavesChild pass.old parent index key.now.tuple held pass.new }
    ensures freed { result ≡ Ok true
        → FreesUnder pass.old parent index key.now.tuple pass.new }
    ensures fits { IsFittedTree (view pass.new) }
{
    fits(pass);
    let family = family_in(space, pass, parent, index, key);
    let before = siblings_before(family);
    if join_beside(alloc, space, pass, parent, before, index, key, wait)? {
        return Ok(true);
    }
    let after = siblings_after(family);
    join_beside(alloc, space, pass, parent, after, index, key, wait)
}

/// Merges the child with a page beside it, if there is such a page.
fn join_beside<R: Wait>(
    alloc: Global,
    space: &ForestSpace,
    pass: &mut ForestPass,
    parent: u32,
    beside: Option<Siblings>,
    index: u32,
    key: &Key,
    wait: &R,
) -> Result<bool, NoMemory>
    requires own { IsForest space.now × IsPassOf space.now pass.old }
    requires way { IsGoingDown pass.old index key.now.tuple (parent ∷ []) }
    requires held { HoldsAboveIf (view pass.old) parent beside index }
    ensures own { IsSamePass pass.old pass.new × IsPassOf space.now pass.new }
    ensures back { ComesBack pass.old parent index key.now.tuple pass.new }
    ensures apart { result ≡ Ok false
        → LeavesPairIf pass.old parent beside index key.now.tuple pass.new }
    ensures freed { result ≡ Ok true
        → FreesUnder pass.old parent index key.now.tuple pass.new }
    ensures fits { IsFittedTree (view pass.new) }
{
    match beside {
        None => {
            fits(pass);
            Ok(false)
        }
        Some(asked) => join_pair(alloc, space, pass, parent, asked, index, key, wait),
    }
}

/// Merges two pages where one is light and both have room on one page, and lifts a root that is
/// left with the one page.
fn join_pair<R: Wait>(
    alloc: Global,
    space: &ForestSpace,
    pass: &mut ForestPass,
    parent: u32,
    asked: Siblings,
    index: u32,
    key: &Key,
    wait: &R,
) -> Result<bool, NoMemory>
    requires own { IsForest space.now × IsPassOf space.now pass.old }
    requires way { IsGoingDown pass.old index key.now.tuple (parent ∷ []) }
    requires held { HoldsAbovePair (view pass.old) parent asked index }
    ensures own { IsSamePass pass.old pass.new × IsPassOf space.now pass.new }
    ensures back { ComesBack pass.old parent index key.now.tuple pass.new }
    ensures apart { result ≡ Ok false
        → LeavesPair pass.old parent asked index key.now.tuple pass.new }
    ensures freed { result ≡ Ok true
        → FreesUnder pass.old parent index key.now.tuple pass.new }
    ensures fits { IsFittedTree (view pass.new) }
{
    let (left, right) = take_pair(space, pass, parent, asked, index, key, wait);
    let pair = Pair {
        parent,
        left,
        right,
        right_asks: asked.right_asks,
    };
    if !are_to_join(space, pass, pair) {
        give_pair_back(space, pass, pair, index, key);
        return Ok(false);
    }
    match merge_children(space, pass, parent, left, right, index, wait) {
        Ok(()) => {
            loads_add_up();
            lift_only(alloc, space, pass, parent, left, index, key, wait)
        }
        Err(error) => {
            give_pair_back(space, pass, pair, index, key);
            Err(error)
        }
    }
}

/// Lifts a root that points to one page alone, and gives that page back. Answers that something was
/// merged before.
fn lift_only<R: Wait>(
    alloc: Global,
    space: &ForestSpace,
    pass: &mut ForestPass,
    parent: u32,
    child: u32,
    index: u32,
    key: &Key,
    wait: &R,
) -> Result<bool, NoMemory>
    requires own { IsForest space.now × IsPassOf space.now pass.old }
    requires way { IsGoingDown pass.old index key.now.tuple (parent ∷ child ∷ []) }
    requires held { HoldsJoined (view pass.old) parent child index }
    ensures own { IsSamePass pass.old pass.new × IsPassOf space.now pass.new }
    ensures back { ComesBack pass.old parent index key.now.tuple pass.new }
    ensures merged { result ≡ Ok false → ⊥ }
    ensures fits { IsFittedTree (view pass.new) }
{
    let _ = key;
    fits(pass);
    let page = held_page(space, pass, parent);
    if page.head().number != index || page.count() > 1 {
        give_back(space, pass, child);
        return Ok(true);
    }
    match lift(alloc, space, pass, index, parent, child, wait) {
        Ok(()) => Ok(true),
        Err(error) => {
            give_back(space, pass, child);
            Err(error)
        }
    }
}

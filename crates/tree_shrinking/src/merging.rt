//! Two children become one under their parent.
ghost use Rattle.std.specs.Prelude.{◌≡◌, ◌+◌, ◌<◌, ◌≤◌, ◌^◌, [], ◌∷◌, OnOk, OnErr};
ghost use Rattle.latch_space.specs.declared.TheConstants.{MAX_HELD};
ghost use Rattle.latch_space.specs.Has.{IsKnown};
ghost use Rattle.latch_space.specs.Passes.{view, count, IsSamePass};
ghost use Rattle.latch_space.specs.Spaces.{IsPassOf};
ghost use Rattle.index_page.specs.Page.{PageRows};
ghost use Rattle.forest_world.specs.Held.{shape_of_pass};
ghost use Rattle.call_law.specs.Hands.{HoldsNoFrameBut, HoldsNoTable};
ghost use Rattle.buffer_pool.specs.Calls.{GetsNothing};
ghost use Rattle.buffer_pool.specs.Forests.{IsForest, IsFittedTree};
ghost use Rattle.tree_shrinking.specs.Merging.{CanMerge, MergesPair, MergesChildren};

use crate::settling::merge_hashed;
use buffer_pool::{frame, free_page, give_back, page_in};
use forest_world::{ForestPass, ForestSpace, fits};
use key_tuple::NoMemory;
use std::sync::Wait;
use tree_smo::{SplitBlocks, head_of, pages_are_numbered};

/// Moves the rows of the right page behind those of the left one, which follows it under their
/// parent, and frees the right one's number. The tree of the index is held by whoever calls, so
/// that no other call changes its shape meanwhile. `parent`, `left` and `right` are blocks. After
/// `NoMemory` all is as before.
pub fn merge_children<R: Wait>(
    space: &ForestSpace,
    pass: &mut ForestPass,
    parent: u32,
    left: u32,
    right: u32,
    index: u32,
    wait: &R,
) -> Result<(), NoMemory>
    requires own { IsForest space.now × IsPassOf space.now pass.old }
    requires held { CanMerge (view pass.old) parent left right index }
    requires known { IsKnown pass.old }
    requires frames { HoldsNoFrameBut (view pass.old) (parent ∷ left ∷ right ∷ []) }
    requires tables { HoldsNoTable (view pass.old) }
    requires room { count pass.old + 3 ≤ MAX_HELD }
    ensures own { IsSamePass pass.old pass.new × IsPassOf space.now pass.new }
    ensures ok { OnOk result (MergesChildren pass.old parent left right index pass.new) }
    ensures memory { OnErr result (GetsNothing pass.old pass.new) }
    ensures fits { IsFittedTree (view pass.new) }
{
    let at = SplitBlocks {
        parent,
        child: left,
        right,
    };
    pages_are_numbered(space, pass);
    merge_pair(space, pass, at, index, wait)?;
    free_page(space, pass, right, wait);
    Ok(())
}

/// Merges two pages. The page behind is held as long as that takes, where there is one.
fn merge_pair<R: Wait>(
    space: &ForestSpace,
    pass: &mut ForestPass,
    at: SplitBlocks,
    index: u32,
    wait: &R,
) -> Result<(), NoMemory>
    requires own { IsForest space.now × IsPassOf space.now pass.old }
    requires held { CanMerge (view pass.old) at.parent at.child at.right index }
    requires known { IsKnown pass.old }
    requires frames { HoldsNoFrameBut (view pass.old) (at.parent ∷ at.child ∷ at.right ∷ []) }
    requires tables { HoldsNoTable (view pass.old) }
    requires few { (shape_of_pass pass.old).pages < 2 ^ 32 }
    requires room { count pass.old + 3 ≤ MAX_HELD }
    ensures own { IsSamePass pass.old pass.new × IsPassOf space.now pass.new }
    ensures ok { OnOk result (MergesPair pass.old at.parent at.child at.right index pass.new) }
    ensures memory { OnErr result (GetsNothing pass.old pass.new) }
    ensures fits { IsFittedTree (view pass.new) }
{
    fits(pass);
    match head_of(frame(space, pass, at.right)).next {
        None => merge_hashed(space, pass, at, index, None, wait),
        Some(next) => {
            let behind = page_in(space, pass, next, wait);
            let made = merge_hashed(space, pass, at, index, Some(behind), wait);
            give_back(space, pass, behind);
            made
        }
    }
}

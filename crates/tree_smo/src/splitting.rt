//! A page is split under its parent.
ghost use Rattle.std.specs.Prelude.{◌≡◌, ◌+◌, ◌<◌, ◌≤◌, ◌^◌, ℕ, [], ◌∷◌, None, Err, IfOk};
ghost use Rattle.std.specs.Prelude.{OnOk, OnErr};
ghost use Rattle.latch_space.specs.declared.TheConstants.{MAX_HELD};
ghost use Rattle.latch_space.specs.Has.{IsKnown};
ghost use Rattle.latch_space.specs.Passes.{view, count, IsSamePass};
ghost use Rattle.latch_space.specs.Spaces.{IsPassOf};
ghost use Rattle.forest_law.specs.declared.objects.Frame.{Frame};
ghost use Rattle.forest_world.specs.Held.{shape_of_pass};
ghost use Rattle.call_law.specs.Hands.{KnowsFrame, HoldsNoFrameBut, HoldsNoPart, HoldsNoTable};
ghost use Rattle.buffer_pool.specs.declared.error.PoolError.TheVariants as refused;
ghost use Rattle.buffer_pool.specs.Calls.{GetsNothing};
ghost use Rattle.buffer_pool.specs.Forests.{IsForest, IsFittedTree};
ghost use Rattle.buffer_pool.specs.NewPages.{FindsNoneFree, HasOutsidePage};
ghost use Rattle.tree_smo.specs.Plans.{IsPlanOf, HoldsPlan, next_blocks, MakesSplit, SplitsBeside};
ghost use Rattle.tree_smo.specs.Splitting.{CanSplit, SplitsChild};

use crate::numbers::pages_are_numbered;
use crate::plans::{SplitPlan, head_of};
use crate::settling::make_split;
use buffer_pool::{
    PoolError, frame, free_page, give_back, give_part_if, hold_part_for, new_page, page_in,
};
use forest_world::{ForestPass, ForestSpace, fits};
use key_tuple::NoMemory;
use std::alloc::Global;
use std::sync::Wait;
use tree_restructure::find_cut;

/// Splits the child's page where its load halves, and answers the block of the right half, which is
/// held besides. The tree of the index is held by whoever calls, so that no other split overtakes
/// this one. After an error all is as before; `SpaceFull` comes where no page number was free.
pub fn split_child<R: Wait>(
    alloc: Global,
    space: &ForestSpace,
    pass: &mut ForestPass,
    parent: u32,
    child: u32,
    index: u32,
    wait: &R,
) -> Result<u32, PoolError>
    requires own { IsForest space.now × IsPassOf space.now pass.old }
    requires held { CanSplit (view pass.old) parent child index }
    requires known { IsKnown pass.old }
    requires frames { HoldsNoFrameBut (view pass.old) (parent ∷ child ∷ []) }
    requires tables { HoldsNoTable (view pass.old) }
    requires room { count pass.old + 4 ≤ MAX_HELD }
    ensures own { IsSamePass pass.old pass.new × IsPassOf space.now pass.new }
    ensures ok { IfOk result (λ right. SplitsChild pass.old parent child index right pass.new) }
    ensures full { result ≡ Err refused.SpaceFull → FindsNoneFree pass.old index pass.new }
    ensures memory { result ≡ Err refused.NoMemory → GetsNothing pass.old pass.new }
    ensures fits { IsFittedTree (view pass.new) }
{
    fits(pass);
    pages_are_numbered(space, pass);
    let low = frame(space, pass, child);
    let head = head_of(low);
    let cut = match find_cut(alloc, low) {
        Ok(cut) => cut,
        Err(_) => return Err(PoolError::NoMemory),
    };
    cut.key.tuple().is_within_limits();
    split_planned(
        alloc,
        space,
        pass,
        SplitPlan {
            parent,
            child,
            head,
            cut,
            next: None,
        },
        wait,
    )
}

/// Makes a planned split. The page behind is held as long as that takes, where there is one.
fn split_planned<R: Wait>(
    alloc: Global,
    space: &ForestSpace,
    pass: &mut ForestPass,
    plan: SplitPlan,
    wait: &R,
) -> Result<u32, PoolError>
    requires own { IsForest space.now × IsPassOf space.now pass.old }
    requires held { (can : CanSplit (view pass.old) plan.parent plan.child plan.head.index)
        × IsPlanOf can.low plan }
    requires next { plan.next ≡ None }
    requires known { IsKnown pass.old }
    requires frames { HoldsNoFrameBut (view pass.old) (plan.parent ∷ plan.child ∷ []) }
    requires tables { HoldsNoTable (view pass.old) }
    requires few { (shape_of_pass pass.old).pages < 2 ^ 32 }
    requires room { count pass.old + 4 ≤ MAX_HELD }
    ensures own { IsSamePass pass.old pass.new × IsPassOf space.now pass.new }
    ensures ok { IfOk result
        (λ right. SplitsChild pass.old plan.parent plan.child plan.head.index right pass.new) }
    ensures full { result ≡ Err refused.SpaceFull
        → FindsNoneFree pass.old plan.head.index pass.new }
    ensures memory { result ≡ Err refused.NoMemory → GetsNothing pass.old pass.new }
    ensures fits { IsFittedTree (view pass.new) }
{
    fits(pass);
    match plan.head.next {
        None => split_beside(alloc, space, pass, plan, wait),
        Some(next) => {
            let behind = page_in(space, pass, next, wait);
            let plan = SplitPlan {
                next: Some(behind),
                ..plan
            };
            let made = split_beside(alloc, space, pass, plan, wait);
            give_back(space, pass, behind);
            made
        }
    }
}

/// Makes a planned split with a new page as the right half, which is held besides.
fn split_beside<R: Wait>(
    alloc: Global,
    space: &ForestSpace,
    pass: &mut ForestPass,
    plan: SplitPlan,
    wait: &R,
) -> Result<u32, PoolError>
    requires own { IsForest space.now × IsPassOf space.now pass.old }
    requires held { HoldsPlan (view pass.old) plan }
    requires known { IsKnown pass.old }
    requires frames { HoldsNoFrameBut (view pass.old)
        (plan.parent ∷ plan.child ∷ next_blocks plan.next) }
    requires tables { HoldsNoTable (view pass.old) }
    requires few { (shape_of_pass pass.old).pages < 2 ^ 32 }
    requires room { count pass.old + 3 ≤ MAX_HELD }
    ensures own { IsSamePass pass.old pass.new × IsPassOf space.now pass.new }
    ensures ok { IfOk result (λ right. SplitsBeside pass.old plan right pass.new) }
    ensures full { result ≡ Err refused.SpaceFull
        → FindsNoneFree pass.old plan.head.index pass.new }
    ensures memory { result ≡ Err refused.NoMemory → GetsNothing pass.old pass.new }
    ensures fits { IsFittedTree (view pass.new) }
{
    fits(pass);
    let right = new_page(alloc, space, pass, plan.head, wait)?;
    match split_hashed(space, pass, plan, right, wait) {
        Ok(()) => Ok(right),
        Err(_) => {
            free_page(space, pass, right, wait);
            Err(PoolError::NoMemory)
        }
    }
}

/// Makes a planned split while the partition of the child's index is held, where the child is hashed.
/// After `NoMemory` what is held is as before.
fn split_hashed<R: Wait>(
    space: &ForestSpace,
    pass: &mut ForestPass,
    plan: SplitPlan,
    right: u32,
    wait: &R,
) -> Result<(), NoMemory>
    requires own { IsForest space.now × IsPassOf space.now pass.old }
    requires held { HoldsPlan (view pass.old) plan }
    requires blank { (f : Frame) × KnowsFrame (view pass.old) right f
        × (n : ℕ) × HasOutsidePage f plan.head n }
    requires known { IsKnown pass.old }
    requires parts { HoldsNoPart (view pass.old) }
    requires few { (shape_of_pass pass.old).pages < 2 ^ 32 }
    requires room { count pass.old + 2 ≤ MAX_HELD }
    ensures own { IsSamePass pass.old pass.new × IsPassOf space.now pass.new }
    ensures ok { OnOk result (MakesSplit pass.old plan right pass.new) }
    ensures err { OnErr result (GetsNothing pass.old pass.new) }
    ensures fits { IsFittedTree (view pass.new) }
{
    fits(pass);
    let hashed = frame(space, pass, plan.child).hashed;
    let part = hold_part_for(space, pass, hashed, wait);
    let made = make_split(space, pass, plan, right, wait);
    give_part_if(space, pass, part);
    made
}

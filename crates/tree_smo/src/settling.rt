//! A planned split is made in hand, and made known in one step.
ghost use Rattle.std.specs.Prelude.{◌<◌, ◌≤◌, ◌^◌, ℕ, Option, OnOk, OnErr};
ghost use Rattle.latch_space.specs.declared.TheConstants.{MAX_HELD};
ghost use Rattle.latch_space.specs.Has.{IsKnown};
ghost use Rattle.latch_space.specs.Passes.{view, count, IsSamePass};
ghost use Rattle.latch_space.specs.Spaces.{IsPassOf};
ghost use Rattle.forest_law.specs.declared.objects.Frame.{Frame};
ghost use Rattle.forest_world.specs.Held.{shape_of_pass};
ghost use Rattle.call_law.specs.Hands.{KnowsFrame};
ghost use Rattle.buffer_pool.specs.Forests.{IsForest, IsFittedTree};
ghost use Rattle.buffer_pool.specs.NewPages.{HasOutsidePage};
ghost use Rattle.tree_smo.specs.PartHeld.{HoldsPartFor};
ghost use Rattle.tree_smo.specs.Plans.{HoldsPlan, MakesSplitHeld};
ghost use Rattle.tree_smo.specs.Remakes.{IsAsBefore};

use crate::halves::{SplitBlocks, change_halves};
use crate::keeping::{keep_up_between, laws_of_moves};
use crate::plans::{SplitPlan, head_of};
use crate::relinking::relink_behind;
use buffer_pool::frame;
use forest_world::{ForestPass, ForestSpace, fits};
use key_tuple::NoMemory;
use std::sync::Wait;

/// Makes a planned split in hand, with the right half's frame, which has a blank page, and with the
/// partition of the child's index, where the child is hashed. After `NoMemory` all is as before.
pub(crate) fn make_split<R: Wait>(
    space: &ForestSpace,
    pass: &mut ForestPass,
    plan: SplitPlan,
    right: u32,
    wait: &R,
) -> Result<(), NoMemory>
    requires own { IsForest space.now × IsPassOf space.now pass.old }
    requires held { HoldsPlan (view pass.old) plan }
    requires blank { (f : Frame) × KnowsFrame (view pass.old) right f
        × (n : ℕ) × HasOutsidePage f plan.head n }
    requires few { (shape_of_pass pass.old).pages < 2 ^ 32 }
    requires known { IsKnown pass.old }
    requires part { (part : Option ℕ) × HoldsPartFor (view pass.old) plan.child part }
    requires room { count pass.old < MAX_HELD }
    ensures own { IsSamePass pass.old pass.new × IsPassOf space.now pass.new }
    ensures ok { OnOk result (MakesSplitHeld pass.old plan right pass.new) }
    ensures err { OnErr result (IsAsBefore pass.old pass.new) }
    ensures fits { IsFittedTree (view pass.new) }
{
    fits(pass);
    laws_of_moves();
    let SplitPlan {
        parent,
        child,
        head: _,
        cut,
        next,
    } = plan;
    let number = head_of(frame(space, pass, right)).number;
    change_halves(
        space,
        pass,
        SplitBlocks {
            parent,
            child,
            right,
        },
        cut,
    )?;
    keep_up_between(space, pass, child, right, wait);
    relink_behind(space, pass, next, number);
    space.settle(pass);
    Ok(())
}

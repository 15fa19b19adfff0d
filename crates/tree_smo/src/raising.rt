//! A root rises by a level.
ghost use Rattle.std.specs.Prelude.{◌≡◌, ◌<◌, ◌+◌, ◌≤◌, [], ◌∷◌, Err, IfOk, OnOk, OnErr};
ghost use Rattle.latch_space.specs.declared.TheConstants.{MAX_HELD};
ghost use Rattle.latch_space.specs.Has.{IsKnown};
ghost use Rattle.latch_space.specs.Passes.{view, count, IsSamePass};
ghost use Rattle.latch_space.specs.Spaces.{IsPassOf};
ghost use Rattle.forest_world.specs.Held.{shape_of_pass};
ghost use Rattle.call_law.specs.Hands.{HoldsNoFrameBut, HoldsNoPart, HoldsNoTable};
ghost use Rattle.buffer_pool.specs.declared.error.PoolError.TheVariants as refused;
ghost use Rattle.buffer_pool.specs.Calls.{GetsNothing};
ghost use Rattle.buffer_pool.specs.Forests.{IsForest, IsFittedTree};
ghost use Rattle.buffer_pool.specs.NewPages.{FindsNoneFree};
ghost use Rattle.tree_smo.specs.Raising.{CanRaise, RaisesRoot};
ghost use Rattle.tree_smo.specs.Storeys.{HoldsStoreys, MakesRaise};

use crate::plans::head_of;
use crate::storeys::make_raise;
use buffer_pool::{PoolError, frame, free_page, give_part_if, hold_part_for, new_page};
use forest_world::{ForestPass, ForestSpace, fits};
use key_tuple::NoMemory;
use std::alloc::Global;
use std::sync::Wait;

/// Moves all rows of an index's root, which is in the block `root`, to a new page, and answers that
/// page's block, which is held besides. The root stays the page of the index's number, a level
/// higher. After an error all is as before; `SpaceFull` comes where no page number was free.
pub fn raise_root<R: Wait>(
    alloc: Global,
    space: &ForestSpace,
    pass: &mut ForestPass,
    index: u32,
    root: u32,
    wait: &R,
) -> Result<u32, PoolError>
    requires own { IsForest space.now × IsPassOf space.now pass.old }
    requires index { index < (shape_of_pass pass.old).indexes }
    requires few { (shape_of_pass pass.old).pages ≤ 65536 }
    requires held { CanRaise (view pass.old) index root }
    requires known { IsKnown pass.old }
    requires frames { HoldsNoFrameBut (view pass.old) (root ∷ []) }
    requires tables { HoldsNoTable (view pass.old) }
    requires room { count pass.old + 3 ≤ MAX_HELD }
    ensures own { IsSamePass pass.old pass.new × IsPassOf space.now pass.new }
    ensures ok { IfOk result (λ under. RaisesRoot pass.old index root under pass.new) }
    ensures full { result ≡ Err refused.SpaceFull → FindsNoneFree pass.old index pass.new }
    ensures memory { result ≡ Err refused.NoMemory → GetsNothing pass.old pass.new }
    ensures fits { IsFittedTree (view pass.new) }
{
    fits(pass);
    let head = head_of(frame(space, pass, root));
    let under = new_page(alloc, space, pass, head, wait)?;
    match raise_hashed(alloc, space, pass, index, root, under, wait) {
        Ok(()) => Ok(under),
        Err(_) => {
            free_page(space, pass, under, wait);
            Err(PoolError::NoMemory)
        }
    }
}

/// Makes a raise while the partition of the index is held, where the root is hashed. After `NoMemory`
/// what is held is as before.
fn raise_hashed<R: Wait>(
    alloc: Global,
    space: &ForestSpace,
    pass: &mut ForestPass,
    index: u32,
    root: u32,
    under: u32,
    wait: &R,
) -> Result<(), NoMemory>
    requires own { IsForest space.now × IsPassOf space.now pass.old }
    requires index { index < (shape_of_pass pass.old).indexes }
    requires few { (shape_of_pass pass.old).pages ≤ 65536 }
    requires held { HoldsStoreys (view pass.old) index root under }
    requires known { IsKnown pass.old }
    requires parts { HoldsNoPart (view pass.old) }
    requires room { count pass.old + 2 ≤ MAX_HELD }
    ensures own { IsSamePass pass.old pass.new × IsPassOf space.now pass.new }
    ensures ok { OnOk result (MakesRaise pass.old index root under pass.new) }
    ensures err { OnErr result (GetsNothing pass.old pass.new) }
    ensures fits { IsFittedTree (view pass.new) }
{
    fits(pass);
    let hashed = frame(space, pass, root).hashed;
    let part = hold_part_for(space, pass, hashed, wait);
    let made = make_raise(alloc, space, pass, index, root, under, wait);
    give_part_if(space, pass, part);
    made
}

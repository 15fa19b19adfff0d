//! The way back to a leaf.
ghost use Rattle.std.specs.Prelude.{◌<◌, []};
ghost use Rattle.latch_space.specs.declared.TheConstants.{MAX_HELD};
ghost use Rattle.latch_space.specs.Has.{IsKnown};
ghost use Rattle.latch_space.specs.Passes.{view, count, IsSamePass};
ghost use Rattle.latch_space.specs.Spaces.{IsPassOf};
ghost use Rattle.call_law.specs.Hands.{HoldsNoFrameBut};
ghost use Rattle.buffer_pool.specs.Forests.{IsForest, IsFittedTree};
ghost use Rattle.tree_cursor.specs.Cursors.{Referred};
ghost use Rattle.tree_cursor.specs.Restoring.{Restores};

use crate::cursor::{Cursor, Restored, Stale};
use buffer_pool::{frame, give_back, try_frame};
use forest_world::{ForestPass, ForestSpace, fits};
use latch_space::Take;

/// Tries the cursor's block once, unless the clock kept is the last value, and holds it where its
/// clock is the one kept. It waits for nobody and takes no memory.
pub fn restore(space: &ForestSpace, pass: &mut ForestPass, cursor: &Cursor) -> Restored
    requires own { IsForest space.now × IsPassOf space.now pass.old }
    requires known { IsKnown pass.old }
    requires frames { HoldsNoFrameBut (view pass.old) [] }
    requires room { count pass.old < MAX_HELD }
    requires referred { Referred (view pass.old) cursor.now }
    ensures own { IsSamePass pass.old pass.new × IsPassOf space.now pass.new }
    ensures told { Restores pass.old cursor.now result pass.new }
    ensures fits { IsFittedTree (view pass.new) }
{
    fits(pass);
    if cursor.clock == u64::MAX {
        return Restored::BySearch { cause: Stale::Last };
    }
    match try_frame(space, pass, cursor.block) {
        Take::Busy { holder } => Restored::BySearch {
            cause: Stale::Busy { holder },
        },
        Take::Taken => {
            let found = frame(space, pass, cursor.block).clock;
            if found == cursor.clock {
                return Restored::ByClock {
                    block: cursor.block,
                };
            }
            give_back(space, pass, cursor.block);
            Restored::BySearch {
                cause: Stale::Moved {
                    kept: cursor.clock,
                    found,
                },
            }
        }
    }
}

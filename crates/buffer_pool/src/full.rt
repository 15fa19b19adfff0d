//! That no page number is free is said at a list.
ghost use Rattle.std.specs.Prelude.{◌<◌};
ghost use Rattle.latch_space.specs.Has.{IsKnown};
ghost use Rattle.latch_space.specs.Passes.{view, IsSamePass};
ghost use Rattle.latch_space.specs.Spaces.{IsPassOf};
ghost use Rattle.forest_law.specs.declared.objects.Pool.{Pool};
ghost use Rattle.forest_world.specs.Held.{shape_of_pass, HasPool};
ghost use Rattle.buffer_pool.specs.Calls.{FindsFull};
ghost use Rattle.buffer_pool.specs.Forests.{IsForest, IsFittedTree};
ghost use Rattle.buffer_pool.specs.NewPages.{HasNoneFree};

use crate::pools::{pool_back, pool_out};
use forest_law::full_pools_are_short;
use forest_world::{ForestPass, ForestSpace, Pool};
use index_law::AsSaying;
use latch_law::Means;

/// A pool without a free number, borrowed. It says where each page is.
#[derive(Clone, Copy)]
pub(crate) struct FullPool<'a> {
    pub(crate) pool: &'a Pool,
}

impl Means<AsSaying> for FullPool<'_> {
    ghost use Rattle.buffer_pool.specs.Full.{full_by};

    ghost meaning = { full_by };
}

/// Says at the index's list where each page is, by the pool in hand.
pub(crate) fn say_full(space: &ForestSpace, pass: &mut ForestPass, index: u32)
    requires own { IsForest space.now × IsPassOf space.now pass.old }
    requires index { index < (shape_of_pass pass.old).indexes }
    requires known { IsKnown pass.old }
    requires pool { (x : Pool) × HasPool pass.old x x × HasNoneFree x }
    ensures own { IsSamePass pass.old pass.new × IsPassOf space.now pass.new }
    ensures full { FindsFull pass.old index pass.new }
    ensures fits { IsFittedTree (view pass.new) }
{
    full_pools_are_short();
    let pool = pool_out(space, pass);
    space.read_point(pass, index, &FullPool { pool: &pool });
    pool_back(space, pass, pool);
}

//! How a block gets its age.
ghost use Rattle.std.specs.Prelude.{◌<◌, length};
ghost use Rattle.buffer_pool.specs.Ages.{IsAged, IsAgeless};

use forest_world::Pool;

/// The pool's tick goes one up, or stays at its last value, and is the block's age.
pub(crate) fn touch(pool: &mut Pool, block: u32)
    requires { block < length pool.old.ages }
    ensures { IsAged pool.old block pool.new }
{
    pool.tick = pool.tick.saturating_add(1);
    pool.ages.set(block, pool.tick);
}

/// The block's age is 0, as that of one that has no page.
pub(crate) fn forget_age(pool: &mut Pool, block: u32)
    requires { block < length pool.old.ages }
    ensures { IsAgeless pool.old block pool.new }
{
    pool.ages.set(block, 0);
}

//! The pool is taken, looked at, changed and given back.
ghost use Rattle.std.specs.Prelude.{◌≡◌, ◌<◌};
ghost use Rattle.latch_space.specs.declared.TheConstants.{MAX_HELD};
ghost use Rattle.latch_space.specs.Passes.{view, count, IsSamePass};
ghost use Rattle.latch_space.specs.Spaces.{IsPassOf};
ghost use Rattle.forest_law.specs.declared.objects.Pool.{Pool};
ghost use Rattle.forest_law.specs.declared.objects.Object.TheVariants as object;
ghost use Rattle.forest_world.specs.Held.{HasPool};
ghost use Rattle.buffer_pool.specs.Forests.{IsForest, IsFittedTree};
ghost use Rattle.buffer_pool.specs.Pools.{LacksPool, HoldsPool, HoldsKnownPool, HasPoolOut};
ghost use Rattle.buffer_pool.specs.Pools.{TakesPool, TakesPoolOut, PutsPoolBack, GivesPool};

use forest_world::{ForestPass, ForestSpace, Object, Pool, shape};
use std::sync::Wait;

/// Tries until the pool is taken.
pub fn take_pool<R: Wait>(space: &ForestSpace, pass: &mut ForestPass, wait: &R)
    requires own { IsPassOf space.now pass.old }
    requires lacks { LacksPool pass.old }
    requires room { count pass.old < MAX_HELD }
    ensures own { IsSamePass pass.old pass.new × IsPassOf space.now pass.new }
    ensures took { TakesPool pass.old pass.new }
    ensures fits { IsFittedTree (view pass.new) }
{
    space.take(pass, shape(space).pool_id(), wait);
}

/// The pool as it stands now.
pub fn pool<'p>(space: &ForestSpace, pass: &'p ForestPass) -> &'p Pool
    requires { HoldsPool pass.now }
    ensures { (x y : Pool) → HasPool pass.now x y → result.now ≡ y }
{
    as_pool(pass.look(shape(space).pool_id()))
}

/// The pool itself. Its place in hand stays empty until `pool_back`.
pub fn pool_out(space: &ForestSpace, pass: &mut ForestPass) -> Pool
    requires own { IsPassOf space.now pass.old }
    requires held { HoldsPool pass.old }
    ensures own { IsSamePass pass.old pass.new × IsPassOf space.now pass.new }
    ensures out { TakesPoolOut pass.old result pass.new }
{
    into_pool(pass.take_out(shape(space).pool_id()))
}

/// Puts a pool into the place of the one that was taken out.
pub fn pool_back(space: &ForestSpace, pass: &mut ForestPass, pool: Pool)
    requires own { IsPassOf space.now pass.old }
    requires out { (x : Pool) × HasPoolOut pass.old x }
    ensures own { IsSamePass pass.old pass.new × IsPassOf space.now pass.new }
    ensures back { PutsPoolBack pass.old pool pass.new }
{
    pass.put_back(shape(space).pool_id(), Object::Pool(pool));
}

/// Gives the pool back, which is what it is known to be.
pub fn give_pool_back(space: &ForestSpace, pass: &mut ForestPass)
    requires own { IsPassOf space.now pass.old }
    requires held { HoldsKnownPool pass.old }
    ensures own { IsSamePass pass.old pass.new × IsPassOf space.now pass.new }
    ensures gave { GivesPool pass.old pass.new }
    ensures fits { IsFittedTree (view pass.new) }
{
    space.release(pass, shape(space).pool_id());
}

// The pool that an object is.
fn as_pool(found: &Object) -> &Pool
    requires { (x : Pool) × (found.now ≡ object.Pool x) }
    ensures { found.now ≡ object.Pool result.now }
{
    match found {
        Object::Pool(pool) => pool,
        _ => unreachable!(),
    }
}

// The same, by value.
fn into_pool(found: Object) -> Pool
    requires { (x : Pool) × (found ≡ object.Pool x) }
    ensures { found ≡ object.Pool result }
{
    match found {
        Object::Pool(pool) => pool,
        _ => unreachable!(),
    }
}

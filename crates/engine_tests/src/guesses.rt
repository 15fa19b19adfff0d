//! The first guess by a key, of an index that asks for its first field.
ghost use Rattle.std.specs.Prelude.{◌≡◌, ◌≤◌, ◌<◌, length, IfOk};
ghost use Rattle.latch_space.specs.Passes.{count};
ghost use Rattle.latch_space.specs.Spaces.{IsPassOf};
ghost use Rattle.search_info.specs.Passes.{opening, HasUnique, IsLearnPassOf};
ghost use Rattle.forest_law.specs.State.{fields_for};
ghost use Rattle.buffer_pool.specs.Forests.{IsForest};

use crate::claims::ensure;
use forest_world::{ForestPass, ForestSpace};
use hash_guess::{Cause, Guess, guess};
use index_page::Place;
use key_tuple::{Key, Mode, Params};
use learning::{Info, is_info_of};
use search_info::{LearnPass, Learner};
use std::process::Abort;

/// What the index knows: it asks for the first field, with the first row of each group, its last
/// search was one for the hash, and the next that goes down has its leaf hashed.
const INFO: Info = Info {
    analysis: 17,
    potential: 100,
    params: Params {
        fields: 1,
        bytes: 0,
        left: true,
    },
    last: true,
    events: 0,
};

/// A learner of one index of two fields that knows this.
pub(crate) fn open_learner<R: AllocGlobal + Abort>(rt: &R) -> (Learner, LearnPass)
    ensures own { IsLearnPassOf result.0 result.1 }
    ensures one { 0 < length (opening result.0).starts }
    ensures two { HasUnique result.0 0 2 }
{
    ensure(rt, is_info_of(2, &INFO), "what such an index may know");
    let (learner, learn) = Learner::open(rt.alloc(), &[INFO], &[2], 1).expect(rt, "a learner");
    ensure(
        rt,
        learner.indexes() != 0 && learner.unique(0) == 2,
        "an index of two fields",
    );
    (learner, learn)
}

/// A block, the place of a row on its page, and whether the row has the key that was sought.
pub(crate) type Row = (u32, Place, bool);

/// Why the first guess by a key leads nowhere; or the row that it leads to.
pub(crate) fn first_guess<R: AllocGlobal + Abort>(
    rt: &R,
    space: &ForestSpace,
    pass: &mut ForestPass,
    key: &Key,
) -> Result<Cause, Row>
    requires forest { IsForest space.now }
    requires own { IsPassOf space.now pass.old }
    requires fields { length key.now.tuple ≤ fields_for space.now.terms.shape 0 }
    requires nothing { count pass.old ≡ 0 }
    ensures own { IsPassOf space.now pass.new }
    ensures nothing { IfOk result (λ _. count pass.new ≡ 0) }
{
    let (learner, mut learn) = open_learner(rt);
    match guess(space, pass, &learner, &mut learn, 0, key, Mode::Ge) {
        Guess::Miss { cause, .. } => Ok(cause),
        Guess::Hit {
            block,
            place,
            found,
            ..
        } => Err((block, place, found)),
    }
}

//! Guesses where nothing is hashed: why they lead nowhere, and that the index learns of a miss.
ghost use Rattle.std.specs.Prelude.{◌≡◌, ◌<◌, ◌≤◌, length};
ghost use Rattle.latch_space.specs.Passes.{count};
ghost use Rattle.latch_space.specs.Spaces.{IsPassOf};
ghost use Rattle.search_info.specs.Passes.{opening, IsLearnPassOf};
ghost use Rattle.forest_law.specs.State.{fields_for};
ghost use Rattle.buffer_pool.specs.Forests.{IsForest};

use crate::claims::ensure;
use forest_world::{ForestPass, ForestSpace};
use hash_guess::{Cause, Guess, guess};
use hash_maintain::{give_part_back, try_part};
use key_tuple::{Key, Mode, Params};
use latch_space::Take;
use learning::{Info, is_info_of};
use search_info::{LearnPass, Learner};
use std::process::Abort;

/// What an index knows that asks for so many fields, and whose last search was one for the hash.
fn warm(fields: u8) -> Info {
    Info {
        analysis: 0,
        potential: 100,
        params: Params {
            fields,
            bytes: 0,
            left: true,
        },
        last: true,
        events: 0,
    }
}

/// Why a guess leads nowhere.
fn cause_of<R: Abort>(
    rt: &R,
    space: &ForestSpace,
    pass: &mut ForestPass,
    learner: &Learner,
    learn: &mut LearnPass,
    key: &Key,
) -> Cause
    requires forest { IsForest space.now }
    requires own { IsPassOf space.now pass.old }
    requires fields { length key.now.tuple ≤ fields_for space.now.terms.shape 0 }
    requires nothing { count pass.old ≡ 0 }
    requires learner { IsLearnPassOf learner.now learn.old }
    requires one { 0 < length (opening learner.now).starts }
    ensures own { IsPassOf space.now pass.new × IsLearnPassOf learner.now learn.new }
    ensures nothing { count pass.new ≡ 0 }
{
    match guess(space, pass, learner, learn, 0, key, Mode::Ge) {
        Guess::Miss { cause, .. } => cause,
        Guess::Hit { .. } => rt.panic("a hit"),
    }
}

/// Why two guesses lead nowhere, one after the other, of an index of two fields that asks for so many
/// first.
pub(crate) fn two_causes<R: AllocGlobal + Abort>(
    rt: &R,
    space: &ForestSpace,
    pass: &mut ForestPass,
    key: &Key,
    fields: u8,
) -> (Cause, Cause)
    requires forest { IsForest space.now }
    requires own { IsPassOf space.now pass.old }
    requires fields { length key.now.tuple ≤ fields_for space.now.terms.shape 0 }
    requires nothing { count pass.old ≡ 0 }
    ensures own { IsPassOf space.now pass.new }
    ensures nothing { count pass.new ≡ 0 }
{
    let info = warm(fields);
    ensure(rt, is_info_of(2, &info), "an info of two fields");
    let (learner, mut learn) = Learner::open(rt.alloc(), &[info], &[2], 1).expect(rt, "a learner");
    let first = cause_of(rt, space, pass, &learner, &mut learn, key);
    let second = cause_of(rt, space, pass, &learner, &mut learn, key);
    (first, second)
}

/// Why a guess leads nowhere while another pass holds the partition.
pub(crate) fn cause_meanwhile<R: AllocGlobal + Abort>(
    rt: &R,
    space: &ForestSpace,
    pass: &mut ForestPass,
    other: &mut ForestPass,
    key: &Key,
) -> Cause
    requires forest { IsForest space.now }
    requires own { IsPassOf space.now pass.old }
    requires other { IsPassOf space.now other.old }
    requires there { 0 < space.now.terms.shape.parts }
    requires fields { length key.now.tuple ≤ fields_for space.now.terms.shape 0 }
    requires nothing { count pass.old ≡ 0 }
    requires none { count other.old ≡ 0 }
{
    ensure(
        rt,
        try_part(space, other, 0) == Take::Taken,
        "a free partition",
    );
    let (cause, _) = two_causes(rt, space, pass, key, 1);
    give_part_back(space, other, 0);
    cause
}

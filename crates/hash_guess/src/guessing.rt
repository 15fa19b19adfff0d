//! The guess: from what an index has learnt to the row that a search asks for.
ghost use Rattle.std.specs.Prelude.{◌≤◌, ◌<◌, ◌+◌, [], length, IfOk, IfErr};
ghost use Rattle.latch_space.specs.declared.TheConstants.{MAX_HELD};
ghost use Rattle.latch_space.specs.Has.{IsKnown};
ghost use Rattle.latch_space.specs.Passes.{view, count, IsSamePass};
ghost use Rattle.latch_space.specs.Spaces.{IsPassOf};
ghost use Rattle.search_info.specs.Passes.{knowledge, opening, IsLearnPassOf, IsSameLearnPass};
ghost use Rattle.forest_law.specs.State.{fields_for};
ghost use Rattle.forest_world.specs.Held.{shape_of_pass};
ghost use Rattle.call_law.specs.Hands.{HoldsNoFrameBut, HoldsNoTable};
ghost use Rattle.buffer_pool.specs.Forests.{IsForest, IsFittedTree};
ghost use Rattle.hash_guess.specs.Guesses.{Guesses, HitsRow, MissedFor};

use crate::cause::Cause;
use crate::confirming::confirm;
use crate::following::follow;
use crate::leading::lead;
use crate::outcome::Guess;
use chain_arena::Node;
use forest_world::{ForestPass, ForestSpace, fits};
use key_tuple::{Fields, Mode};
use latch_space::Take;
use learning::Info;
use search_info::{LearnPass, Learner};

/// Guesses where the row is that a mode asks for, by what the index has learnt: one load, one try of
/// the index's partition, one of the block of a node that it has, and the check of the row that the
/// node names. Then the index learns of it, by one load and at most one exchange more.
pub fn guess<A: Fields>(
    space: &ForestSpace,
    pass: &mut ForestPass,
    learner: &Learner,
    learn: &mut LearnPass,
    index: u32,
    tuple: &A,
    mode: Mode,
) -> Guess
    requires own { IsForest space.now × IsPassOf space.now pass.old }
    requires known { IsKnown pass.old }
    requires frames { HoldsNoFrameBut (view pass.old) [] }
    requires tables { HoldsNoTable (view pass.old) }
    requires room { count pass.old + 2 ≤ MAX_HELD }
    requires fields { length (A.fields_of tuple.now) ≤ fields_for (shape_of_pass pass.old) index }
    requires learner { IsLearnPassOf learner.now learn.old }
    requires index { index < length (opening learner.now).starts }
    ensures own { IsSamePass pass.old pass.new × IsPassOf space.now pass.new }
    ensures learner { IsSameLearnPass learn.old learn.new × IsLearnPassOf learner.now learn.new }
    ensures fits { IsFittedTree (view pass.new) }
    ensures did { Guesses pass.old (knowledge learn.old) index mode (A.fields_of tuple.now) result
        pass.new (knowledge learn.new) }
{
    let info = learner.recommend(learn, index);
    let told = find_named(space, pass, index, tuple, mode, &info);
    fits(pass);
    match told {
        Ok((node, found)) => Guess::Hit {
            block: node.block,
            place: node.place,
            found,
            learn: learner.after_hit(learn, index),
        },
        Err(cause) => {
            let learn = if cause.is_miss() {
                Some(learner.after_miss(learn, index))
            } else {
                None
            };
            Guess::Miss { cause, learn }
        }
    }
}

/// The node whose row is the one that the mode asks for, and whether the tuple's fields are those of
/// its key. The frame of its block is held then.
fn find_named<A: Fields>(
    space: &ForestSpace,
    pass: &mut ForestPass,
    index: u32,
    tuple: &A,
    mode: Mode,
    info: &Info,
) -> Result<(Node, bool), Cause>
    requires own { IsForest space.now × IsPassOf space.now pass.old }
    requires known { IsKnown pass.old }
    requires frames { HoldsNoFrameBut (view pass.old) [] }
    requires tables { HoldsNoTable (view pass.old) }
    requires room { count pass.old + 2 ≤ MAX_HELD }
    requires fields { length (A.fields_of tuple.now) ≤ fields_for (shape_of_pass pass.old) index }
    ensures own { IsSamePass pass.old pass.new × IsPassOf space.now pass.new }
    ensures ok { IfOk result (λ r. HitsRow pass.old index mode (A.fields_of tuple.now) info.now
        r.0.block r.0.place r.1 pass.new) }
    ensures err { IfErr result (λ cause. MissedFor pass.old index mode (A.fields_of tuple.now)
        info.now cause pass.new) }
{
    fits(pass);
    let node = lead(space, pass, index, tuple, info)?;
    if let Take::Busy { holder } = follow(space, pass, index, &node) {
        return Err(Cause::BlockBusy { holder });
    }
    match confirm(space, pass, index, tuple, mode, &node) {
        Some(found) => Ok((node, found)),
        None => Err(Cause::Unequal {
            block: node.block,
            place: node.place,
        }),
    }
}

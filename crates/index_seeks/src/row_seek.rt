//! A seek: a guess by the hash, and where that leads nowhere a way down.
ghost use Rattle.std.specs.Prelude.{◌≡◌, ◌<◌, ◌≤◌, length, true};
ghost use Rattle.latch_space.specs.Passes.{view, count, IsSamePass};
ghost use Rattle.latch_space.specs.Spaces.{IsPassOf};
ghost use Rattle.map_history.specs.Columns.{may_stand};
ghost use Rattle.map_history.specs.Told.{columns_told};
ghost use Rattle.search_info.specs.Passes.{knowledge, HasUnique, IsLearnPassOf, IsSameLearnPass};
ghost use Rattle.forest_law.specs.State.{fields_for};
ghost use Rattle.buffer_pool.specs.Forests.{IsForest};
ghost use Rattle.search_info.specs.Tries.{TriesAfter};
ghost use Rattle.index_seeks.specs.SeekSearches.{SeekTrace};
ghost use Rattle.index_seeks.specs.SeekTraces.{TellsOfSeek};

use crate::pairing::find_pair;
use crate::seek_call::SeekCall;
use engine_law::Found;
use forest_world::{ForestPass, ForestSpace};
use hash_guess::{Guess, guess};
use key_tuple::{Mode, Tuple};
use leaf_search::{how_of, note_of_hit};
use map_history::{How, Note, RowBuf, Told};
use search_info::{LearnPass, Learner};
use std::sync::Wait;

/// The row of an index that the mode asks for: `Found`, with the row in `out`, or `Absent`. One
/// that isn't on the leaf of the tuple's position is looked for on the leaves beside it.
pub fn seek_row<R: Wait>(
    space: &ForestSpace,
    pass: &mut ForestPass,
    learner: &Learner,
    learn: &mut LearnPass,
    index: u32,
    mode: Mode,
    tuple: &Tuple,
    out: &mut RowBuf,
    wait: &R,
) -> Told
    requires own { IsForest space.now × IsPassOf space.now pass.old }
    requires learner { IsLearnPassOf learner.now learn.old }
    requires index { index < space.now.terms.shape.indexes }
    requires unique { HasUnique learner.now index (fields_for space.now.terms.shape index) }
    requires fields { length tuple.now.fields ≤ fields_for space.now.terms.shape index }
    requires nothing { count pass.old ≡ 0 }
    ensures own { IsSamePass pass.old pass.new × IsPassOf space.now pass.new }
    ensures learner { IsSameLearnPass learn.old learn.new × IsLearnPassOf learner.now learn.new }
    ensures nothing { count pass.new ≡ 0 }
    ensures told { TellsOfSeek (view pass.old) (view pass.new) (knowledge learn.new) index mode
        tuple.now.fields result out.new }
    ensures tried { TriesAfter (knowledge learn.old) index result.how (knowledge learn.new) }
    ensures searched { SeekTrace pass.old (knowledge learn.old) index mode tuple.now.fields
        (columns_told result) (knowledge learn.new) }
{
    match guess(space, pass, learner, learn, index, tuple, mode) {
        Guess::Hit {
            block,
            place,
            learn,
            ..
        } => {
            let note = note_of_hit(&learn);
            seek_call(space, index, mode, tuple, How::Hit, note, wait).end_on_hit(
                pass, block, place, out,
            )
        }
        Guess::Miss { cause, .. } => {
            let (pair, note) = find_pair(space, pass, learner, learn, index, mode, tuple, wait);
            seek_call(space, index, mode, tuple, how_of(&cause), note, wait).seek(pass, &pair, out)
        }
    }
}

/// A call about the row of an index that the mode asks for, whose first leaf was found so.
fn seek_call<'a, R>(
    space: &'a ForestSpace,
    index: u32,
    mode: Mode,
    tuple: &'a Tuple,
    how: How,
    note: Note,
    wait: &'a R,
) -> SeekCall<'a, R>
    requires forest { IsForest space.now }
    requires index { index < space.now.terms.shape.indexes }
    requires fields { length tuple.now.fields ≤ fields_for space.now.terms.shape index }
    requires stands { may_stand (record { how = how; note = note }) ≡ true }
    ensures space { result.space.now ≡ space.now }
    ensures about { (result.index ≡ index) × (result.mode ≡ mode)
        × (result.tuple.now.fields ≡ tuple.now.fields) }
    ensures found { (result.found.how ≡ how) × (result.found.note ≡ note) }
{
    let found = Found { how, note };
    SeekCall {
        space,
        index,
        mode,
        tuple,
        found,
        wait,
    }
}

//! A write of a row, which is tried until it is answered.
ghost use Rattle.std.specs.Prelude.{◌≡◌, IfOk, IfErr, IfSome, OnErr, None};
ghost use Rattle.latch_space.specs.Passes.{view, count, IsSamePass};
ghost use Rattle.latch_space.specs.Spaces.{IsPassOf};
ghost use Rattle.map_history.specs.Told.{columns_told};
ghost use Rattle.call_law.specs.Once.{IsQuiet};
ghost use Rattle.index_law.specs.Meanings.{lent_row};
ghost use Rattle.leaf_changes.specs.Changes.{RefusesHolding};
ghost use Rattle.leaf_changes.specs.Hashed.{HoldsHashed};
ghost use Rattle.leaf_changes.specs.Holds.{HoldsFreshAlone};
ghost use Rattle.engine_law.specs.Says.{columns_by};
ghost use Rattle.leaf_changes.specs.Says.{AnswersHolding};
ghost use Rattle.forest_world.specs.Held.{shape_of_pass};
ghost use Rattle.index_engine.specs.Leaving.{ComesToLeaf};
ghost use Rattle.index_engine.specs.Traces.{AreWayTo};
ghost use Rattle.index_engine.specs.Writes.{write_asked, AnswersWrite, LeavesUnanswered};
ghost use Rattle.index_engine.specs.Writes.{TellsAgain, TriesWrite};

use crate::growing::grow;
use crate::write::Write;
use forest_world::ForestPass;
use index_page::PageError;
use key_tuple::{Mode, NoMemory, Value};
use leaf_changes::TreeCall;
use map_history::Told;
use std::sync::Wait;
use tree_descent::{Leaf, descend};

/// Writes the row of the key on its leaf in hand, if the index allows it and its list has room,
/// and gives the leaf back. Where that has no room, it is made, and all is tried again: another
/// may have put the key by then or taken it out, or taken the room. `most` is how many changes
/// the list may have.
pub(crate) fn write_key<R: Wait>(
    call: &TreeCall<'_, R>,
    pass: &mut ForestPass,
    leaf: &Leaf,
    most: u64,
    write: Write,
    value: &Value,
) -> Result<Told, NoMemory>
    requires own { IsPassOf call.now.space.now pass.old }
    requires most { most ≡ call.now.space.now.terms.max_changes }
    requires alone { HoldsFreshAlone pass.old leaf.now.block call.now.index
        call.now.key.now.tuple leaf.now.spot }
    ensures own { IsSamePass pass.old pass.new × IsPassOf call.now.space.now pass.new }
    ensures nothing { count pass.new ≡ 0 }
    ensures ok { IfOk result (λ told. AnswersWrite pass.old leaf.now.block call.now.index
        call.now.key.now.tuple value.now
        (write_asked write call.now.key.now.tuple value.now) told pass.new) }
    ensures columns { IfOk result (λ told. columns_told told ≡ columns_by call.now.found) }
    ensures err { OnErr result (LeavesUnanswered pass.old leaf.now.block call.now.index
        call.now.key.now.tuple value.now pass.new) }
{
    match try_write(call, pass, leaf, most, write, value)? {
        Some(told) => Ok(told),
        None => write_again(call, pass, most, write, value),
    }
}

/// Goes down from the root, and tries the same on that leaf, until it is answered.
fn write_again<R: Wait>(
    call: &TreeCall<'_, R>,
    pass: &mut ForestPass,
    most: u64,
    write: Write,
    value: &Value,
) -> Result<Told, NoMemory>
    requires own { IsPassOf call.now.space.now pass.old }
    requires most { most ≡ call.now.space.now.terms.max_changes }
    requires nothing { count pass.old ≡ 0 }
    ensures own { IsSamePass pass.old pass.new × IsPassOf call.now.space.now pass.new }
    ensures nothing { count pass.new ≡ 0 }
    ensures ok { IfOk result (λ told. TellsAgain (view pass.old) (view pass.new)
        call.now.index call.now.key.now.tuple
        (write_asked write call.now.key.now.tuple value.now) told) }
    ensures columns { IfOk result (λ told. columns_told told ≡ columns_by call.now.found) }
    ensures err { OnErr result (IsQuiet (view pass.old) (view pass.new) call.now.index) }
{
    for _ in call.wait.forever() {
        let leaf = hold_leaf(call, pass);
        if let Some(told) = try_write(call, pass, &leaf, most, write, value)? {
            return Ok(told);
        }
    }
    unreachable!()
}

/// One try of that, with the leaf in hand. It answers `None` where it is to be tried again.
fn try_write<R: Wait>(
    call: &TreeCall<'_, R>,
    pass: &mut ForestPass,
    leaf: &Leaf,
    most: u64,
    write: Write,
    value: &Value,
) -> Result<Option<Told>, NoMemory>
    requires own { IsPassOf call.now.space.now pass.old }
    requires most { most ≡ call.now.space.now.terms.max_changes }
    requires alone { HoldsFreshAlone pass.old leaf.now.block call.now.index
        call.now.key.now.tuple leaf.now.spot }
    ensures own { IsSamePass pass.old pass.new × IsPassOf call.now.space.now pass.new }
    ensures nothing { count pass.new ≡ 0 }
    ensures ok { IfOk result (λ told. TriesWrite pass.old leaf.now.block call.now.index
        call.now.key.now.tuple value.now
        (write_asked write call.now.key.now.tuple value.now) told pass.new) }
    ensures columns { IfOk result (λ told. IfSome told
        (λ t. columns_told t ≡ columns_by call.now.found)) }
    ensures err { OnErr result (LeavesUnanswered pass.old leaf.now.block call.now.index
        call.now.key.now.tuple value.now pass.new) }
{
    let part = call.hold_to_change(pass, leaf);
    let written = write_held(call, pass, leaf, most, write, value);
    call.let_both_go(pass, leaf.block, part);
    match written {
        Ok(told) => Ok(Some(told)),
        Err(refusal) => match refusal {
            PageError::NoMemory => Err(NoMemory),
            _ => grow(call, pass, write, value),
        },
    }
}

/// The same while the leaf is held. Nothing is answered where it takes no row.
fn write_held<R: Wait>(
    call: &TreeCall<'_, R>,
    pass: &mut ForestPass,
    leaf: &Leaf,
    most: u64,
    write: Write,
    value: &Value,
) -> Result<Told, PageError>
    requires own { IsPassOf call.now.space.now pass.old }
    requires most { most ≡ call.now.space.now.terms.max_changes }
    requires held { HoldsHashed pass.old leaf.now.block call.now.index call.now.key.now.tuple
        leaf.now.spot }
    ensures own { IsSamePass pass.old pass.new × IsPassOf call.now.space.now pass.new }
    ensures ok { IfOk result (λ told. AnswersHolding pass.old pass.new leaf.now.block
        call.now.index (write_asked write call.now.key.now.tuple value.now) told
        (lent_row None)) }
    ensures columns { IfOk result (λ told. columns_told told ≡ columns_by call.now.found) }
    ensures err { IfErr result (λ e. RefusesHolding pass.old pass.new leaf.now.block
        call.now.index call.now.key.now.tuple value.now e) }
{
    match write {
        Write::Put => call.put_held(pass, leaf, most, value),
        Write::Set => call.set_held(pass, leaf, most, value),
    }
}

/// Goes down from the root, and holds the leaf.
fn hold_leaf<R: Wait>(call: &TreeCall<'_, R>, pass: &mut ForestPass) -> Leaf
    requires own { IsPassOf call.now.space.now pass.old }
    requires nothing { count pass.old ≡ 0 }
    ensures own { IsSamePass pass.old pass.new × IsPassOf call.now.space.now pass.new }
    ensures went { ComesToLeaf (AreWayTo (shape_of_pass pass.old) call.now.index
        call.now.key.now.tuple) pass.old call.now.index call.now.key.now.tuple result
        pass.new }
    ensures held { HoldsFreshAlone pass.new result.block call.now.index call.now.key.now.tuple
        result.spot }
{
    descend(call.space, pass, call.index, call.key, Mode::Ge, call.wait)
}

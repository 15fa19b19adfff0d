//! A row taken out, and light pages merged then.
ghost use Rattle.std.specs.Prelude.{◌≡◌, IsTrue};
ghost use Rattle.latch_space.specs.Passes.{view, count, IsSamePass};
ghost use Rattle.latch_space.specs.Spaces.{IsPassOf};
ghost use Rattle.map_history.specs.Told.{columns_told};
ghost use Rattle.tree_growth.specs.Growing.{GrowsSilently};
ghost use Rattle.engine_law.specs.Says.{columns_by};
ghost use Rattle.leaf_changes.specs.Holds.{HoldsFreshAlone};
ghost use Rattle.index_engine.specs.Leaving.{AnswersDel};
ghost use Rattle.index_engine.specs.Traces.{SeesEach, HasLightPage};

use forest_world::{ForestPass, Frame, fits};
use leaf_changes::TreeCall;
use map_history::{Reply, Told};
use std::sync::Wait;
use tree_descent::Leaf;
use tree_shrinking::{LIGHT_LOAD, shrink};

/// Takes the row of the key out of its leaf in hand, if the index has it and its list has room,
/// and gives the leaf back.
pub(crate) fn delete_key<R: Wait>(
    call: &TreeCall<'_, R>,
    pass: &mut ForestPass,
    leaf: &Leaf,
) -> Told
    requires own { IsPassOf call.now.space.now pass.old }
    requires alone { HoldsFreshAlone pass.old leaf.now.block call.now.index
        call.now.key.now.tuple leaf.now.spot }
    ensures own { IsSamePass pass.old pass.new × IsPassOf call.now.space.now pass.new }
    ensures nothing { count pass.new ≡ 0 }
    ensures told { AnswersDel pass.old leaf.now.block call.now.index call.now.key.now.tuple
        result pass.new }
    ensures columns { columns_told result ≡ columns_by call.now.found }
{
    let part = call.hold_to_change(pass, leaf);
    let told = call.del_held(pass, leaf);
    let is_light = is_light(call.frame(pass, leaf.block));
    call.let_both_go(pass, leaf.block, part);
    if is_light && took_out(&told) {
        merge(call, pass);
    }
    told
}

/// Merges the leaf of the key, and pages above it, where they are light. A merge for which there
/// is no memory is left out.
fn merge<R: Wait>(call: &TreeCall<'_, R>, pass: &mut ForestPass)
    requires own { IsPassOf call.now.space.now pass.old }
    requires nothing { count pass.old ≡ 0 }
    ensures own { IsSamePass pass.old pass.new × IsPassOf call.now.space.now pass.new }
    ensures nothing { count pass.new ≡ 0 }
    ensures silent { GrowsSilently pass.old pass.new }
    ensures seen { SeesEach (view pass.old) call.now.index }
{
    fits(pass);
    let _ = shrink(
        call.alloc, call.space, pass, call.index, call.key, call.wait,
    );
}

/// The del took a row out.
fn took_out(told: &Told) -> bool
    ensures { IsTrue result → told.now.reply ≡ Reply.Ok }
{
    matches!(told.reply, Reply::Ok)
}

/// The frame's page is light.
fn is_light(frame: &Frame) -> bool
    ensures { IsTrue result → HasLightPage frame.now }
{
    match &frame.page {
        Some(page) => page.load() < LIGHT_LOAD,
        None => false,
    }
}

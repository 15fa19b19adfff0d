//! From a tuple to a node: what the index has learnt, and what its partition has of the fold.
ghost use Rattle.std.specs.Prelude.{◌≡◌, ◌≤◌, ◌<◌, IfOk, IfErr};
ghost use Rattle.key_tuple.specs.Fold.{asked_fields};
ghost use Rattle.latch_space.specs.declared.TheConstants.{MAX_HELD};
ghost use Rattle.latch_space.specs.Has.{IsKnown};
ghost use Rattle.latch_space.specs.Passes.{view, count, IsSamePass};
ghost use Rattle.latch_space.specs.Spaces.{IsPassOf};
ghost use Rattle.call_law.specs.Hands.{HoldsNoPart};
ghost use Rattle.hash_guess.specs.Leads.{is_cold, IsAsked, HoldsEntry, MissedBy};

use crate::cause::Cause;
use chain_arena::Node;
use forest_world::{ForestPass, ForestSpace, fits, shape};
use hash_maintain::{give_part_back, partition, try_part};
use key_tuple::{Fields, fold};
use latch_space::Take;
use learning::Info;

/// Takes the partition of the index by one try, and finds a node of the tuple's fold in it. The
/// partition stays held then; where there is none, it is given back.
pub(crate) fn lead<A: Fields>(
    space: &ForestSpace,
    pass: &mut ForestPass,
    index: u32,
    tuple: &A,
    info: &Info,
) -> Result<Node, Cause>
    requires own { IsPassOf space.now pass.old }
    requires known { IsKnown pass.old }
    requires parts { HoldsNoPart (view pass.old) }
    requires room { count pass.old < MAX_HELD }
    ensures own { IsSamePass pass.old pass.new × IsPassOf space.now pass.new }
    ensures ok { IfOk result (λ n. HoldsEntry pass.old index (A.fields_of tuple.now) info.now n
        pass.new) }
    ensures err { IfErr result (λ cause. MissedBy pass.old index (A.fields_of tuple.now) info.now
        cause pass.new) }
{
    if is_cold(info) {
        return Err(Cause::Cold);
    }
    let have = tuple.count();
    let need = info.params.asked_fields();
    if u16::from(have) < need {
        return Err(Cause::Short { have, need });
    }
    look_up(space, pass, index, tuple, info)
}

/// The same of an index that is warm, and a tuple that is long enough.
fn look_up<A: Fields>(
    space: &ForestSpace,
    pass: &mut ForestPass,
    index: u32,
    tuple: &A,
    info: &Info,
) -> Result<Node, Cause>
    requires own { IsPassOf space.now pass.old }
    requires known { IsKnown pass.old }
    requires parts { HoldsNoPart (view pass.old) }
    requires room { count pass.old < MAX_HELD }
    requires asked { IsAsked (A.fields_of tuple.now) info.now }
    ensures own { IsSamePass pass.old pass.new × IsPassOf space.now pass.new }
    ensures ok { IfOk result (λ n. HoldsEntry pass.old index (A.fields_of tuple.now) info.now n
        pass.new) }
    ensures err { IfErr result (λ cause. MissedBy pass.old index (A.fields_of tuple.now) info.now
        cause pass.new) }
{
    fits(pass);
    let layout = shape(space);
    let part = layout.part_for(index);
    let fold = fold(index, tuple, &info.params, layout.fold_bits());
    if let Take::Busy { holder } = try_part(space, pass, part) {
        return Err(Cause::PartBusy { holder });
    }
    if let Some(node) = partition(space, pass, part).find(fold) {
        return Ok(node);
    }
    give_part_back(space, pass, part);
    Err(Cause::NoEntry { fold })
}

/// Whether what the index has learnt promises nothing.
fn is_cold(info: &Info) -> bool
    ensures { result ≡ is_cold info.now }
{
    info.potential == 0 || !info.last
}

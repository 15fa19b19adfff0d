//! Whether the row that a node names is the sought one.
ghost use Rattle.std.specs.Prelude.{◌≡◌, ◌≤◌, ℕ, length, IfNone, IfSome};
ghost use Rattle.latch_space.specs.Has.{IsKnown};
ghost use Rattle.latch_space.specs.Passes.{IsSamePass};
ghost use Rattle.latch_space.specs.Spaces.{IsPassOf};
ghost use Rattle.forest_law.specs.State.{fields_for};
ghost use Rattle.forest_world.specs.Held.{shape_of_pass};
ghost use Rattle.hash_maintain.specs.Leaves.{HasRowInFrame};
ghost use Rattle.buffer_pool.specs.Forests.{IsForest};
ghost use Rattle.hash_guess.specs.Confirms.{HoldsNamedRow, ChecksFrame, SuitsFrame, Confirms, Refutes};

use buffer_pool::{frame, give_back};
use chain_arena::Node;
use forest_law::frames_tell_pages;
use forest_world::{ForestPass, ForestSpace, Frame, fits};
use guess_check::check;
use index_page::Place;
use key_tuple::{Fields, Mode};

/// Checks the row that a node names on the leaf in hand. Where the leaf is of the index and shows that
/// the row is the one that the mode asks for, the frame stays in hand, and the answer tells whether the
/// tuple's fields are those of its key. Else the frame is given back.
pub(crate) fn confirm<A: Fields>(
    space: &ForestSpace,
    pass: &mut ForestPass,
    index: u32,
    tuple: &A,
    mode: Mode,
    node: &Node,
) -> Option<bool>
    requires own { IsForest space.now × IsPassOf space.now pass.old }
    requires known { IsKnown pass.old }
    requires row { HoldsNamedRow pass.old index node.now }
    requires fields { length (A.fields_of tuple.now) ≤ fields_for (shape_of_pass pass.old) index }
    ensures own { IsSamePass pass.old pass.new × IsPassOf space.now pass.new }
    ensures some { IfSome result (λ found. (pass.new ≡ pass.old)
        × Confirms pass.old index mode (A.fields_of tuple.now) node.now found) }
    ensures none { IfNone result (Refutes pass.old index mode (A.fields_of tuple.now) node.now
        pass.new) }
{
    fits(pass);
    frames_tell_pages();
    let told = check_frame(
        frame(space, pass, node.block),
        index,
        tuple,
        mode,
        node.place,
    );
    if told.is_none() {
        give_back(space, pass, node.block);
    }
    told
}

/// The check of the row at a place of a frame's page, where that is of the index.
fn check_frame<A: Fields>(
    frame: &Frame,
    index: u32,
    tuple: &A,
    mode: Mode,
    place: Place,
) -> Option<bool>
    requires row { HasRowInFrame frame.now place }
    requires fields { SuitsFrame frame.now index (A.fields_of tuple.now) }
    ensures { ChecksFrame frame.now index mode (A.fields_of tuple.now) place result }
{
    let Some(page) = &frame.page else {
        return None;
    };
    if page.head().index != index {
        return None;
    }
    check(page, place, tuple, mode)
}

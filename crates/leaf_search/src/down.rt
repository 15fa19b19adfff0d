//! A way down to the leaf of a whole key, and what it teaches.
ghost use Rattle.std.specs.Prelude.{◌≡◌, ◌<◌, ◌+◌, ◌≤◌, [], Some, length};
ghost use Rattle.latch_space.specs.declared.TheConstants.{MAX_HELD};
ghost use Rattle.latch_space.specs.Has.{IsKnown};
ghost use Rattle.latch_space.specs.Passes.{view, count, IsSamePass};
ghost use Rattle.latch_space.specs.Spaces.{IsPassOf};
ghost use Rattle.key_tuple.specs.declared.mode.Mode.TheVariants.{Ge};
ghost use Rattle.search_info.specs.Passes.{knowledge, HasUnique, IsLearnPassOf, IsSameLearnPass};
ghost use Rattle.index_page.specs.Page.{PageRows, IsPageInOrder};
ghost use Rattle.index_page.specs.Search.{Finds};
ghost use Rattle.forest_law.specs.State.{fields_for};
ghost use Rattle.forest_world.specs.Held.{shape_of_pass};
ghost use Rattle.call_law.specs.Hands.{HoldsNoFrameBut, HoldsNoTable};
ghost use Rattle.buffer_pool.specs.Forests.{IsForest, IsFittedTree};
ghost use Rattle.tree_descent.specs.Ways.{HoldsPage};
ghost use Rattle.leaf_search.specs.Downs.{SearchesDown};

use crate::lesson::learn_leaf;
use buffer_pool::frame;
use forest_world::{ForestPass, ForestSpace, Frame};
use index_page::Spot;
use key_tuple::{Fields, Key, Mode};
use learning::Figures;
use map_history::Note;
use search_info::{LearnPass, Learner};
use std::sync::Wait;
use tree_descent::{Leaf, descend};

/// Goes down to the leaf that has the key in its bounds, and learns from that by the mode's
/// figures. The spot is that of the key itself.
pub(crate) fn search_down<R: Wait>(
    space: &ForestSpace,
    pass: &mut ForestPass,
    learner: &Learner,
    learn: &mut LearnPass,
    index: u32,
    key: &Key,
    mode: Mode,
    wait: &R,
) -> (Leaf, Note)
    requires own { IsForest space.now × IsPassOf space.now pass.old }
    requires learner { IsLearnPassOf learner.now learn.old }
    requires index { index < (shape_of_pass pass.old).indexes }
    requires unique { HasUnique learner.now index (fields_for (shape_of_pass pass.old) index) }
    requires fields { length key.now.tuple ≡ fields_for (shape_of_pass pass.old) index }
    requires known { IsKnown pass.old }
    requires frames { HoldsNoFrameBut (view pass.old) [] }
    requires tables { HoldsNoTable (view pass.old) }
    requires room { count pass.old + 3 ≤ MAX_HELD }
    ensures own { IsSamePass pass.old pass.new × IsPassOf space.now pass.new }
    ensures learner { IsSameLearnPass learn.old learn.new × IsLearnPassOf learner.now learn.new }
    ensures went { SearchesDown pass.old (knowledge learn.old) index mode key.now.tuple result.0
        result.1 pass.new (knowledge learn.new) }
    ensures fits { IsFittedTree (view pass.new) }
{
    key.tuple().is_within_limits();
    let way = descend(space, pass, index, key, mode, wait);
    let figures = Figures {
        low: way.spot.low,
        up: way.spot.up,
    };
    let note = learn_leaf(
        space, pass, learner, learn, index, way.block, &figures, wait,
    );
    let spot = own_spot(space, pass, way.block, index, key, mode, &way.spot);
    let leaf = Leaf {
        block: way.block,
        spot,
    };
    (leaf, note)
}

/// The key's own spot, by the one that a search with the mode told. No row is looked at again,
/// unless the mode asks for a row beside the key, or the row is there.
fn own_spot(
    space: &ForestSpace,
    pass: &ForestPass,
    block: u32,
    index: u32,
    key: &Key,
    mode: Mode,
    spot: &Spot,
) -> Spot
    requires own { IsForest space.now × IsPassOf space.now pass.now }
    requires fields { length key.now.tuple ≡ fields_for (shape_of_pass pass.now) index }
    requires leaf { HoldsPage (view pass.now) block index 0 }
    requires known { IsKnown pass.now }
    requires finds { (h : HoldsPage (view pass.now) block index 0)
        → Finds mode key.now.tuple h.is.page.rows spot.now }
    ensures { (h : HoldsPage (view pass.now) block index 0)
        → Finds Ge key.now.tuple h.is.page.rows result }
{
    match mode {
        Mode::Ge => *spot,
        Mode::Le if spot.low.fields != key.count() => {
            leaf_is_in_order(space, pass, block, index);
            *spot
        }
        _ => key_spot(space, pass, block, index, key),
    }
}

/// The spot of a key on the leaf in the block's frame.
pub fn key_spot(space: &ForestSpace, pass: &ForestPass, block: u32, index: u32, key: &Key) -> Spot
    requires own { IsForest space.now × IsPassOf space.now pass.now }
    requires fields { length key.now.tuple ≡ fields_for (shape_of_pass pass.now) index }
    requires leaf { HoldsPage (view pass.now) block index 0 }
    requires known { IsKnown pass.now }
    ensures { (h : HoldsPage (view pass.now) block index 0)
        → Finds Ge key.now.tuple h.is.page.rows result }
{
    let _ = index;
    spot_in(frame(space, pass, block), key)
}

/// The rows of the leaf in the block's frame are in order.
pub fn leaf_is_in_order(space: &ForestSpace, pass: &ForestPass, block: u32, index: u32)
    requires own { IsForest space.now × IsPassOf space.now pass.now }
    requires leaf { HoldsPage (view pass.now) block index 0 }
    requires known { IsKnown pass.now }
    ensures { (h : HoldsPage (view pass.now) block index 0) → IsPageInOrder h.is.page }
{
    let _ = index;
    page_is_in_order(frame(space, pass, block));
}

/// The same of the page of a frame that has one.
fn page_is_in_order(frame: &Frame)
    requires { (page : PageRows) × (frame.now.page ≡ Some page) }
    ensures { (page : PageRows) → frame.now.page ≡ Some page → IsPageInOrder page }
{
    match &frame.page {
        Some(page) => page.is_in_order(),
        None => unreachable!(),
    }
}

/// The spot on the page of a frame that has one.
fn spot_in(frame: &Frame, key: &Key) -> Spot
    requires paged { (page : PageRows) × (frame.now.page ≡ Some page) }
    requires fields { (page : PageRows) → frame.now.page ≡ Some page
        → length key.now.tuple ≡ page.head.fields }
    ensures { (page : PageRows) → frame.now.page ≡ Some page
        → Finds Ge key.now.tuple page.rows result }
{
    match &frame.page {
        Some(page) => page.search(key, Mode::Ge),
        None => unreachable!(),
    }
}

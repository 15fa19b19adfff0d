//! Rows of a space of one index, by calls on a pass that holds nothing between two of them.
ghost use Rattle.std.specs.Prelude.{◌≡◌, ◌≤◌, ◌<◌, length};
ghost use Rattle.latch_space.specs.Passes.{count, IsSamePass};
ghost use Rattle.latch_space.specs.Spaces.{IsPassOf};
ghost use Rattle.forest_law.specs.State.{fields_for};
ghost use Rattle.buffer_pool.specs.Forests.{IsForest};
ghost use Rattle.leaf_changes.specs.Holds.{HoldsFreshAlone};

use crate::asked::value_of;
use crate::claims::ensure;
use crate::guesses::open_learner;
use crate::names::{Row, key_of};
use buffer_pool::give_back;
use engine_law::Found;
use forest_world::{ForestPass, ForestSpace};
use index_page::PageError;
use key_tuple::{Key, Mode, Value};
use leaf_changes::TreeCall;
use leaf_search::{KeySearch, search_key};
use map_history::{How, Note, Reply, Told};
use std::process::Abort;
use std::sync::Wait;
use tree_descent::{Leaf, descend};

/// Goes down from the root, and holds the leaf.
pub(crate) fn hold_leaf<R: Wait>(call: &TreeCall<'_, R>, pass: &mut ForestPass) -> Leaf
    requires own { IsPassOf call.now.space.now pass.old }
    requires nothing { count pass.old ≡ 0 }
    ensures own { IsSamePass pass.old pass.new × IsPassOf call.now.space.now pass.new }
    ensures held { HoldsFreshAlone pass.new result.block call.now.index call.now.key.now.tuple
        result.spot }
{
    descend(call.space, pass, call.index, call.key, Mode::Ge, call.wait)
}

/// Puts a row, of at most so many changes, if its leaf has room for it.
pub(crate) fn put_once<R: Wait>(
    call: &TreeCall<'_, R>,
    pass: &mut ForestPass,
    most: u64,
    value: &Value,
) -> Result<Told, PageError>
    requires own { IsPassOf call.now.space.now pass.old }
    requires most { most ≡ call.now.space.now.terms.max_changes }
    requires nothing { count pass.old ≡ 0 }
    ensures own { IsSamePass pass.old pass.new × IsPassOf call.now.space.now pass.new }
    ensures nothing { count pass.new ≡ 0 }
{
    let leaf = hold_leaf(call, pass);
    let part = call.hold_to_change(pass, &leaf);
    let told = call.put_held(pass, &leaf, most, value);
    call.let_both_go(pass, leaf.block, part);
    told
}

/// Puts the row of a name, in a space of at most 100 changes.
pub(crate) fn put_row<R: AllocGlobal + Abort + Wait>(
    rt: &R,
    space: &ForestSpace,
    pass: &mut ForestPass,
    row: Row,
)
    requires forest { IsForest space.now }
    requires own { IsPassOf space.now pass.old }
    requires few { space.now.terms.shape.pages ≤ 65536 }
    requires there { 0 < space.now.terms.shape.indexes }
    requires two { fields_for space.now.terms.shape 0 ≡ 2 }
    requires most { space.now.terms.max_changes ≡ 100 }
    requires nothing { count pass.old ≡ 0 }
    ensures own { IsPassOf space.now pass.new }
    ensures nothing { count pass.new ≡ 0 }
{
    let key = key_of(rt, row);
    let value = value_of(rt, rt.alloc(), (row.as_slice(), 2048));
    let found = Found {
        how: How::Cold,
        note: Note::No,
    };
    let call = TreeCall {
        space,
        alloc: rt.alloc(),
        index: 0,
        key: &key,
        found,
        wait: rt,
    };
    let told = put_once(&call, pass, 100, &value).expect(rt, "room for a row");
    ensure(rt, told.reply == Reply::Ok, "a row that is put");
}

/// Lets a search go down to the leaf of the key, which has it hashed.
pub(crate) fn hash<R: AllocGlobal + Abort + Wait>(
    rt: &R,
    space: &ForestSpace,
    pass: &mut ForestPass,
    key: &Key,
)
    requires forest { IsForest space.now }
    requires own { IsPassOf space.now pass.old }
    requires there { 0 < space.now.terms.shape.indexes }
    requires two { fields_for space.now.terms.shape 0 ≡ 2 }
    requires fields { length key.now.tuple ≡ fields_for space.now.terms.shape 0 }
    requires nothing { count pass.old ≡ 0 }
    ensures own { IsPassOf space.now pass.new }
    ensures nothing { count pass.new ≡ 0 }
{
    let (learner, mut learn) = open_learner(rt);
    match search_key(space, pass, &learner, &mut learn, 0, key, Mode::Ge, rt) {
        KeySearch::Leaf(searched) => {
            give_back(space, pass, searched.leaf.block);
            ensure(rt, searched.note == Note::Built, "a leaf that gets hashed");
        }
        KeySearch::Row { .. } => rt.panic("it was hashed"),
    }
}

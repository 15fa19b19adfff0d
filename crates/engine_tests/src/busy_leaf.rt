//! A hashed leaf with a leaf to its left: what a guess by the key of its first row is told while
//! another pass holds it, and once it is given back.
ghost use Rattle.std.specs.Prelude.{◌≡◌, ◌≤◌, ◌<◌, length};
ghost use Rattle.latch_space.specs.Passes.{count};
ghost use Rattle.latch_space.specs.Spaces.{IsPassOf};
ghost use Rattle.forest_law.specs.State.{fields_for};
ghost use Rattle.buffer_pool.specs.Forests.{IsForest};

use crate::claims::ensure;
use crate::guesses;
use crate::guesses::first_guess;
use crate::names::{Row, SIZES, key_of};
use crate::plot::{hash, put_row};
use buffer_pool::give_back;
use forest_world::{ForestPass, ForestSpace, open_forest};
use hash_guess::Cause;
use index_page::MAX_CHARGE;
use key_tuple::{Key, Mode};
use std::process::Abort;
use std::sync::Wait;
use tree_descent::{Leaf, descend};
use tree_growth::make_room;

/// The rows, each with as many bytes as a row may have. They fill a leaf.
static ROWS: [Row; 5] = [b"a1", b"c1", b"m5", b"m7", b"n1"];

/// Another row, for which the leaf is split behind its second one.
const NEXT: Row = b"o1";

/// The first row of the right leaf then, and a key below it that has no row.
const FIRST: Row = b"m5";

const BELOW: Row = b"m3";

/// Puts the rows in, which fill a leaf, and has it split.
fn put_rows<R: AllocGlobal + Abort + Wait>(rt: &R, space: &ForestSpace, pass: &mut ForestPass)
    requires forest { IsForest space.now }
    requires own { IsPassOf space.now pass.old }
    requires few { space.now.terms.shape.pages ≤ 65536 }
    requires there { 0 < space.now.terms.shape.indexes }
    requires two { fields_for space.now.terms.shape 0 ≡ 2 }
    requires most { space.now.terms.max_changes ≡ 100 }
    requires nothing { count pass.old ≡ 0 }
    ensures own { IsPassOf space.now pass.new }
    ensures nothing { count pass.new ≡ 0 }
{
    for row in ROWS.iter() {
        put_row(rt, space, pass, *row);
    }
    let room = make_room(
        rt.alloc(),
        space,
        pass,
        0,
        &key_of(rt, NEXT),
        MAX_CHARGE,
        rt,
    );
    ensure(rt, room.is_ok(), "room");
}

/// Whether a guess led to the row that stands behind the leaf's spot, and that row has the key.
fn is_hit_after(leaf: &Leaf, told: &Result<Cause, guesses::Row>) -> bool {
    match told {
        Ok(_) => false,
        Err((block, place, found)) => {
            *found && *block == leaf.block && Some(*place) == leaf.spot.after
        }
    }
}

/// Why a guess by the key leads nowhere while the other pass holds its leaf. One leads to its row
/// there once that is given back.
fn cause_meanwhile<R: AllocGlobal + Abort + Wait>(
    rt: &R,
    space: &ForestSpace,
    pass: &mut ForestPass,
    other: &mut ForestPass,
    key: &Key,
) -> Cause
    requires forest { IsForest space.now }
    requires own { IsPassOf space.now pass.old }
    requires other { IsPassOf space.now other.old }
    requires there { 0 < space.now.terms.shape.indexes }
    requires fields { length key.now.tuple ≤ fields_for space.now.terms.shape 0 }
    requires nothing { count pass.old ≡ 0 }
    requires none { count other.old ≡ 0 }
{
    let leaf = descend(space, other, 0, key, Mode::Ge, rt);
    let cause = first_guess(rt, space, pass, key).expect(rt, "a miss, not a hit");
    give_back(space, other, leaf.block);
    let told = first_guess(rt, space, pass, key);
    ensure(rt, is_hit_after(&leaf, &told), "a hit on the leaf's row");
    cause
}

/// A leaf with another to its left shows no key below its first row, and is busy while another pass
/// holds it.
fn assert_told<R: AllocGlobal + Abort + Wait>(
    rt: &R,
    space: &ForestSpace,
    pass: &mut ForestPass,
    other: &mut ForestPass,
)
    requires forest { IsForest space.now }
    requires own { IsPassOf space.now pass.old }
    requires other { IsPassOf space.now other.old }
    requires there { 0 < space.now.terms.shape.indexes }
    requires two { fields_for space.now.terms.shape 0 ≡ 2 }
    requires nothing { count pass.old ≡ 0 }
    requires none { count other.old ≡ 0 }
{
    let key = key_of(rt, FIRST);
    hash(rt, space, pass, &key);
    let below = first_guess(rt, space, pass, &key_of(rt, BELOW)).expect(rt, "no such key");
    let is_unequal = matches!(below, Cause::Unequal { .. });
    let busy = cause_meanwhile(rt, space, pass, other, &key);
    ensure(
        rt,
        is_unequal && busy == Cause::BlockBusy { holder: 1 },
        "a page that doesn't show the key, and a busy one",
    );
}

/// The same in a space of its own.
fn work_plot<R: AllocGlobal + Abort + Wait>(rt: &R) {
    let (space, mut pass) = open_forest(rt.alloc(), &SIZES, &[2], 2, 0).expect(rt, "a space");
    let mut other = space
        .split(rt.alloc(), &mut pass)
        .expect(rt, "another pass");
    put_rows(rt, &space, &mut pass);
    assert_told(rt, &space, &mut pass, &mut other);
}

#[test]
fn a_leaf_is_busy_while_another_pass_holds_it_and_hit_once_it_is_free(rt: HostRuntime) {
    work_plot(&rt);
}

//! A cursor is stored on a leaf of the first index, and that leaf is found again.
ghost use Rattle.std.specs.Prelude.{ℕ, ◌≡◌, true, [], ◌∷◌, length, IsSome, IfSome};
ghost use Rattle.latch_space.specs.Has.{IsKnown};
ghost use Rattle.latch_space.specs.Passes.{view, count};
ghost use Rattle.latch_space.specs.Spaces.{IsPassOf};
ghost use Rattle.tree_descent.specs.Ways.{HoldsPage};
ghost use Rattle.tree_neighbours.specs.LeafHands.{HoldsLeavesAlone};
ghost use Rattle.tree_cursor.specs.Pieces.{HoldsStand};
ghost use Rattle.tree_cursor.specs.Starts.{place_of};
ghost use Rattle.tree_cursor.specs.Storing.{MayStore};
ghost use Rattle.engine_tests.specs.Marks.{IsMarked, MayRefill};

use crate::claims::ensure;
use crate::site::Site;
use buffer_pool::{frame, give_back};
use forest_world::ForestPass;
use index_page::Place;
use key_tuple::{Key, Mode};
use std::process::Abort;
use std::sync::Wait;
use tree_cursor::{Cursor, Restored, restore, store};
use tree_descent::descend;

/// A cursor on the leaf in hand, which is given back: before the row at the place or, where none is
/// named, before the high key.
fn store_on<R: AllocGlobal + Abort>(
    rt: &R,
    site: &Site,
    pass: &mut ForestPass,
    block: u32,
    place: Option<Place>,
) -> Cursor
    requires own { IsPassOf site.now.space pass.old }
    requires known { IsKnown pass.old }
    requires one { count pass.old ≡ 1 }
    requires leaf { HoldsPage (view pass.old) block 0 0 }
    requires may { MayStore (view pass.old) block place }
    ensures own { IsPassOf site.now.space pass.new }
    ensures nothing { count pass.new ≡ 0 }
    ensures marked { IsMarked (view pass.new) result }
{
    match store(rt.alloc(), &site.space, pass, block, place) {
        Ok(cursor) => {
            give_back(&site.space, pass, block);
            cursor
        }
        Err(_) => rt.panic("memory for a key"),
    }
}

/// Whether the leaf in hand has a high key.
fn has_high(site: &Site, pass: &ForestPass, block: u32) -> bool
    requires own { IsPassOf site.now.space pass.now }
    requires known { IsKnown pass.now }
    requires leaf { HoldsPage (view pass.now) block 0 0 }
    ensures { (h : HoldsPage (view pass.now) block 0 0) → result ≡ true → IsSome h.frame.high }
{
    frame(&site.space, pass, block).high.is_some()
}

/// A cursor before the first row of the key's leaf that isn't below the key or, where that has none,
/// before its high key; no cursor where that has none either. The leaf is given back.
pub(crate) fn store_from<R: AllocGlobal + Abort + Wait>(
    rt: &R,
    site: &Site,
    pass: &mut ForestPass,
    key: &Key,
) -> Option<Cursor>
    requires own { IsPassOf site.now.space pass.old }
    requires nothing { count pass.old ≡ 0 }
    requires one { length key.now.tuple ≡ 1 }
    ensures own { IsPassOf site.now.space pass.new }
    ensures nothing { count pass.new ≡ 0 }
    ensures marked { IfSome result (λ c. IsMarked (view pass.new) c) }
{
    let leaf = descend(&site.space, pass, 0, key, Mode::Ge, rt);
    match leaf.spot.after {
        Some(place) => Some(store_on(rt, site, pass, leaf.block, Some(place))),
        None => {
            if has_high(site, pass, leaf.block) {
                return Some(store_on(rt, site, pass, leaf.block, None));
            }
            give_back(&site.space, pass, leaf.block);
            None
        }
    }
}

/// A cursor before the high key of the key's leaf, which is given back.
pub(crate) fn store_end<R: AllocGlobal + Abort + Wait>(
    rt: &R,
    site: &Site,
    pass: &mut ForestPass,
    key: &Key,
) -> Cursor
    requires own { IsPassOf site.now.space pass.old }
    requires nothing { count pass.old ≡ 0 }
    requires one { length key.now.tuple ≡ 1 }
    ensures own { IsPassOf site.now.space pass.new }
    ensures nothing { count pass.new ≡ 0 }
    ensures marked { IsMarked (view pass.new) result }
{
    let leaf = descend(&site.space, pass, 0, key, Mode::Ge, rt);
    ensure(rt, has_high(site, pass, leaf.block), "a high key");
    store_on(rt, site, pass, leaf.block, None)
}

/// What a cursor is told when it is restored. Where its leaf is held then, it is given back.
pub(crate) fn told_alone(site: &Site, pass: &mut ForestPass, cursor: &Cursor) -> Restored
    requires own { IsPassOf site.now.space pass.old }
    requires nothing { count pass.old ≡ 0 }
    requires marked { IsMarked (view pass.old) cursor.now }
    ensures own { IsPassOf site.now.space pass.new }
    ensures nothing { count pass.new ≡ 0 }
    ensures marked { IsMarked (view pass.new) cursor.now }
{
    match restore(&site.space, pass, cursor) {
        Restored::ByClock { block } => {
            give_back(&site.space, pass, block);
            Restored::ByClock { block }
        }
        Restored::BySearch { cause } => Restored::BySearch { cause },
    }
}

/// The index of the leaf in hand.
fn index_of<R: Abort>(rt: &R, site: &Site, pass: &ForestPass, block: u32) -> u32
    requires own { IsPassOf site.now.space pass.now }
    requires known { IsKnown pass.now }
    requires held { (i : ℕ) × HoldsPage (view pass.now) block i 0 }
    ensures { (i : ℕ) → HoldsPage (view pass.now) block i 0 → result ≡ i }
{
    match &frame(&site.space, pass, block).page {
        Some(page) => page.head().index,
        None => rt.panic("a page"),
    }
}

/// Holds the leaf that has the cursor's key, which is searched for.
pub(crate) fn search_leaf<R: Wait>(
    site: &Site,
    pass: &mut ForestPass,
    cursor: &mut Cursor,
    wait: &R,
) -> u32
    requires own { IsPassOf site.now.space pass.old }
    requires nothing { count pass.old ≡ 0 }
    requires room { MayRefill (view pass.old) cursor.old }
    ensures own { IsPassOf site.now.space pass.new }
    ensures only { HoldsLeavesAlone pass.new (result ∷ []) }
    ensures stand { HoldsStand (view pass.new) result 0 cursor.new (place_of cursor.new) }
{
    // The last value guards nothing: the row of the key is searched for on the leaf too.
    cursor.clock = u64::MAX;
    descend(&site.space, pass, 0, &cursor.key, Mode::Ge, wait).block
}

/// Holds the cursor's leaf, which is found by its clock or by a search, and tells how and the block.
pub(crate) fn find_leaf<R: Abort + Wait>(
    rt: &R,
    site: &Site,
    pass: &mut ForestPass,
    cursor: &mut Cursor,
) -> (Restored, u32)
    requires own { IsPassOf site.now.space pass.old }
    requires nothing { count pass.old ≡ 0 }
    requires marked { IsMarked (view pass.old) cursor.old }
    ensures own { IsPassOf site.now.space pass.new }
    ensures only { HoldsLeavesAlone pass.new (result.1 ∷ []) }
    ensures stand { HoldsStand (view pass.new) result.1 0 cursor.new (place_of cursor.new) }
{
    let told = restore(&site.space, pass, cursor);
    match told {
        Restored::ByClock { block } => {
            let index = index_of(rt, site, pass, block);
            ensure(rt, index == 0, "a leaf of the first index");
            (told, block)
        }
        Restored::BySearch { .. } => (told, search_leaf(site, pass, cursor, rt)),
    }
}

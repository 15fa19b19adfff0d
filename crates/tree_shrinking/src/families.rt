//! A child of a page, and those beside it under the same page.
ghost use Rattle.std.specs.Prelude.{ℕ, ◌≡◌, ◌≢◌, IsSome, Some, [], length};
ghost use Rattle.key_tuple.specs.declared.mode.Mode.TheVariants as mode;
ghost use Rattle.latch_space.specs.Has.{IsKnown};
ghost use Rattle.latch_space.specs.Passes.{view};
ghost use Rattle.latch_space.specs.Spaces.{IsPassOf};
ghost use Rattle.key_tuple.specs.Position.{position_cut};
ghost use Rattle.index_page.specs.Rows.{Row, Child, find_row};
ghost use Rattle.forest_law.specs.State.{fields_for};
ghost use Rattle.forest_world.specs.Held.{shape_of_pass};
ghost use Rattle.buffer_pool.specs.Forests.{IsForest};
ghost use Rattle.tree_descent.specs.Descents.{HoldsInner};
ghost use Rattle.tree_descent.specs.Leaves.{cut_in};
ghost use Rattle.tree_descent.specs.Paths.{PicksChild};
ghost use Rattle.tree_shrinking.specs.Families.{IsChildAt, TellsFamily};
ghost use Rattle.tree_shrinking.specs.Families.{siblings_before, siblings_after};

use crate::pairs::Siblings;
use crate::reading::held_page;
use forest_world::{ForestPass, ForestSpace, fits};
use index_page::{Page, Place};
use key_tuple::{Key, Mode};

/// A child of a page, with the pages that the rows before and after its own point to.
#[derive(Drop, Clone, Copy)]
pub(crate) struct Family {
    /// The child's number.
    pub child: u32,
    /// The number of the page before it, if the same page points to that.
    pub left: Option<u32>,
    /// The number of the page after it, if the same page points to that.
    pub right: Option<u32>,
}

/// The page before the child and the child, which may be the light one.
pub(crate) fn siblings_before(family: Family) -> Option<Siblings>
    ensures { result ≡ siblings_before family }
{
    match family.left {
        Some(left) => Some(Siblings {
            left,
            right: family.child,
            right_asks: true,
        }),
        None => None,
    }
}

/// The child, which may be the light one, and the page after it.
pub(crate) fn siblings_after(family: Family) -> Option<Siblings>
    ensures { result ≡ siblings_after family }
{
    match family.right {
        Some(right) => Some(Siblings {
            left: family.child,
            right,
            right_asks: false,
        }),
        None => None,
    }
}

/// The child that has the key, of the page in hand, and those beside it.
pub(crate) fn family_in(
    space: &ForestSpace,
    pass: &ForestPass,
    block: u32,
    index: u32,
    key: &Key,
) -> Family
    requires own { IsForest space.now × IsPassOf space.now pass.now }
    requires fields { length key.now.tuple ≡ fields_for (shape_of_pass pass.now) index }
    requires held { HoldsInner (view pass.now) block index mode.Ge key.now.tuple }
    requires known { IsKnown pass.now }
    ensures tells { (held : HoldsInner (view pass.now) block index mode.Ge key.now.tuple)
        → TellsFamily held.page.is.page.rows result }
    ensures picks { (held : HoldsInner (view pass.now) block index mode.Ge key.now.tuple)
        → PicksChild (cut_in (shape_of_pass pass.now) index mode.Ge key.now.tuple)
        held.page.is.page.rows result.child }
{
    let _ = index;
    fits(pass);
    family_on(held_page(space, pass, block), key)
}

/// The same of a page.
fn family_on(page: &Page, key: &Key) -> Family
    requires inner { page.now.head.level ≢ 0 }
    requires some { page.now.rows ≢ [] }
    requires fields { length key.now.tuple ≡ page.now.head.fields }
    ensures tells { TellsFamily page.now.rows result }
    ensures picks { PicksChild (position_cut page.now.head.fields mode.Ge key.now.tuple)
        page.now.rows result.child }
{
    page.is_in_order();
    let spot = page.search(key, Mode::Le);
    match spot.before.or(spot.after) {
        Some(place) => family_at(page, place),
        None => unreachable!(),
    }
}

/// The child that the row at a place points to, and those beside it.
fn family_at(page: &Page, place: Place) -> Family
    requires inner { page.now.head.level ≢ 0 }
    requires there { IsSome (find_row place page.now.rows) }
    ensures tells { TellsFamily page.now.rows result }
    ensures at { (row : Row) → find_row place page.now.rows ≡ Some row
        → row.body ≡ Child result.child }
{
    page.is_in_order();
    let (before, after) = page.beside(place);
    Family {
        child: page.row(place).child(),
        left: child_at(page, before),
        right: child_at(page, after),
    }
}

/// The child that the row at a place points to, if there is a place.
fn child_at(page: &Page, place: Option<Place>) -> Option<u32>
    requires inner { page.now.head.level ≢ 0 }
    requires there { (p : ℕ) → place ≡ Some p → IsSome (find_row p page.now.rows) }
    ensures { IsChildAt page.now.rows place result }
{
    match place {
        Some(place) => Some(page.row(place).child()),
        None => None,
    }
}

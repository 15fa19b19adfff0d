//! A parent's pointer that goes.
ghost use Rattle.std.specs.Prelude.{◌≡◌, ℕ, Some};
ghost use Rattle.key_tuple.specs.Order.{FieldList};
ghost use Rattle.forest_law.specs.State.{bound};
ghost use Rattle.tree_merging.specs.Merges.{KeyStands, LosesKey};
ghost use Rattle.tree_merging.specs.FrameMerges.{PointsToBoth, LosesPointer};

use forest_law::Frame;
use index_page::{Page, spots_tell_keys};
use key_tuple::{Key, Mode};

/// Takes the pointer to the page of the right frame out, whose key is where that page begins.
pub(crate) fn take_pointer(parent: &mut Frame, right: &Frame)
    requires { (at : FieldList) × (bound right.now.low ≡ Some at)
        × ((left other : ℕ) × PointsToBoth left other parent.old at) }
    ensures { (at : FieldList) → bound right.now.low ≡ Some at
        → LosesPointer parent.old parent.new at }
{
    match (&mut parent.page, &right.low) {
        (Some(page), Some(low)) => delete_key(page, low),
        _ => unreachable!(),
    }
}

/// Takes the row with this key out.
fn delete_key(page: &mut Page, key: &Key)
    requires { KeyStands page.old key.now.tuple }
    ensures { LosesKey page.old page.new key.now.tuple }
{
    page.is_in_order();
    key.tuple().is_within_limits();
    spots_tell_keys();
    match page.search(key, Mode::Ge).after {
        Some(place) => page.delete(place),
        None => unreachable!(),
    }
    page.is_in_order();
}

//! The row of a key.
ghost use Rattle.page_view.specs.Finding.{HasSpot, IsFoundAt};

use index_page::{Page, Place, Spot, spots_tell_keys};
use key_tuple::{Fields, Key};

/// The place of the key's row, by the spot that a search with `Ge` told. No row is looked at: the
/// figures of the spot tell.
pub fn find_key(page: &Page, key: &Key, spot: &Spot) -> Option<Place>
    requires { HasSpot page.now key.now.tuple spot.now }
    ensures { IsFoundAt page.now key.now.tuple result }
{
    page.is_in_order();
    key.tuple().is_within_limits();
    spots_tell_keys();
    if spot.up.fields == key.count() {
        spot.after
    } else {
        None
    }
}

//! The position of a tuple: the mode whose cut it is, and whether bounds have it.
ghost use Rattle.std.specs.Prelude.{◌≡◌, ◌≤◌, ◌↔◌, not, IsTrue, IfSome, length};
ghost use Rattle.key_tuple.specs.KeyPlace.{cut_of};
ghost use Rattle.key_tuple.specs.Position.{position_cut};
ghost use Rattle.index_page.specs.Picks.{position_mode};
ghost use Rattle.tree_law.specs.Pages.{HasFields, low_place, high_place};
ghost use Rattle.forest_law.specs.State.{bound};
ghost use Rattle.tree_descent.specs.Leaves.{HasCutWithin};

use forest_world::Frame;
use key_tuple::{Fields, Key, Mode, is_past};

/// The mode whose cut is the position, where keys have so many fields.
pub(crate) fn mode_of_position<T: Fields>(fields: u8, mode: Mode, tuple: &T) -> Mode
    ensures { result ≡ position_mode fields mode (T.fields_of tuple.now) }
{
    if tuple.count() == fields {
        Mode::Le
    } else {
        mode
    }
}

/// Whether the frame's bounds have the position.
pub(crate) fn has_position<T: Fields>(frame: &Frame, fields: u8, tuple: &T, mode: Mode) -> bool
    requires fields { length (T.fields_of tuple.now) ≤ fields }
    requires low { HasFields fields (bound frame.now.low) }
    requires high { HasFields fields (bound frame.now.high) }
    ensures { IsTrue result
        ↔ HasCutWithin frame.now (position_cut fields mode (T.fields_of tuple.now)) }
{
    let cut = mode_of_position(fields, mode, tuple);
    begins_before(&frame.low, tuple, cut) && ends_past(&frame.high, tuple, cut)
}

/// Whether the low end of a range is before the mode's cut.
#[tactic(auto, unfolding(key_tuple::specs::KeyPlace::not_below, key_tuple::specs::KeyPlace::above))]
fn begins_before<T: Fields>(low: &Option<Key>, tuple: &T, mode: Mode) -> bool
    requires { IfSome (bound low.now) (λ k. length (T.fields_of tuple.now) ≤ length k) }
    ensures { result ≡ not (cut_of mode (T.fields_of tuple.now) (low_place (bound low.now))) }
{
    match low {
        Some(key) => !is_past(mode, tuple, key.tuple()),
        None => true,
    }
}

/// Whether the high end of a range is past the mode's cut.
#[tactic(auto, unfolding(key_tuple::specs::KeyPlace::not_below, key_tuple::specs::KeyPlace::above))]
fn ends_past<T: Fields>(high: &Option<Key>, tuple: &T, mode: Mode) -> bool
    requires { IfSome (bound high.now) (λ k. length (T.fields_of tuple.now) ≤ length k) }
    ensures { result ≡ cut_of mode (T.fields_of tuple.now) (high_place (bound high.now)) }
{
    match high {
        Some(key) => is_past(mode, tuple, key.tuple()),
        None => true,
    }
}

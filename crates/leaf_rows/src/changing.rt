//! A row of a leaf comes, or goes.
ghost use Rattle.std.specs.Prelude.{◌≡◌, ◌≤◌, ◌⊎◌, List, ℕ, length, Some, None, Err};
ghost use Rattle.std.specs.Prelude.{IfOk, IfErr, OnErr, IfSome, IsSome};
ghost use Rattle.key_tuple.specs.Order.{FieldList};
ghost use Rattle.key_tuple.specs.declared.mode.Mode.TheVariants as mode;
ghost use Rattle.map_history.specs.Map.{value_at};
ghost use Rattle.index_page.specs.declared.error.PageError.TheVariants as error;
ghost use Rattle.index_page.specs.Changes.{Inserts, page_without};
ghost use Rattle.index_page.specs.Page.{IsPageInOrder};
ghost use Rattle.index_page.specs.Refusals.{insert_refusal};
ghost use Rattle.index_page.specs.Rows.{Bytes, placed_row, find_row};
ghost use Rattle.tree_law.specs.Pages.{row_pairs};
ghost use Rattle.clock_law.specs.ModifyClock.{last_clock};
ghost use Rattle.forest_law.specs.HashSteps.{KeepsHashing};
ghost use Rattle.page_view.specs.Finding.{HasSpot};
ghost use Rattle.leaf_rows.specs.Changing.{LacksRow, PutsRow, WasPut, HasSomeRow, TakesRowOut};
ghost use Rattle.leaf_rows.specs.Changing.{row_refusal, IsFullFor, HasRowOf, frame_without};
ghost use Rattle.leaf_rows.specs.Changing.{hashed_as};

use crate::laws::refusals_are_full;
use forest_law::Frame;
use index_page::{Body, Page, PageError, Place, Spot, spots_tell_keys};
use key_tuple::{Key, Value};

/// Puts the key's row in at its spot and tells its place. A row for which there is no room is
/// refused before any memory is asked for. After an error the frame is as before.
pub fn put_row(frame: &mut Frame, spot: &Spot, key: &Key, value: &Value) -> Result<Place, PageError>
    requires { LacksRow frame.old key.now.tuple spot.now }
    ensures ok { IfOk result (λ place. PutsRow frame.old frame.new place key.now.tuple value.now) }
    ensures refused { IfSome (row_refusal frame.old key.now.tuple value.now)
        (λ e. result ≡ Err e) }
    ensures cause { IfErr result (λ e. (e ≡ error.NoMemory)
        ⊎ (row_refusal frame.old key.now.tuple value.now ≡ Some e)) }
    ensures full { IfErr result (λ e. (e ≡ error.NoMemory)
        ⊎ IsFullFor frame.old key.now.tuple value.now e) }
    ensures err { OnErr result (frame.new ≡ frame.old) }
    ensures hash { KeepsHashing frame.old frame.new }
{
    refusals_are_full();
    match &mut frame.page {
        Some(page) => insert(page, spot, key, value),
        None => unreachable!(),
    }
}

/// The same, by the page's rows.
fn insert(page: &mut Page, spot: &Spot, key: &Key, value: &Value) -> Result<Place, PageError>
    requires spot { HasSpot page.old key.now.tuple spot.now }
    requires absent { value_at key.now.tuple (row_pairs page.old.rows) ≡ None }
    ensures ok { IfOk result (λ place. Inserts page.old page.new
        (placed_row place key.now.tuple (Bytes value.now))) }
    ensures order { IsPageInOrder page.new }
    ensures refused { IfSome (insert_refusal page.old key.now.tuple (Bytes value.now))
        (λ e. result ≡ Err e) }
    ensures cause { IfErr result (λ e. (e ≡ error.NoMemory)
        ⊎ (insert_refusal page.old key.now.tuple (Bytes value.now) ≡ Some e)) }
    ensures err { OnErr result (page.new ≡ page.old) }
{
    let inserted = insert_at(page, spot, key, value);
    page.is_in_order();
    inserted
}

/// The same, with nothing said of the page's order.
fn insert_at(page: &mut Page, spot: &Spot, key: &Key, value: &Value) -> Result<Place, PageError>
    requires spot { HasSpot page.old key.now.tuple spot.now }
    requires absent { value_at key.now.tuple (row_pairs page.old.rows) ≡ None }
    ensures ok { IfOk result (λ place. Inserts page.old page.new
        (placed_row place key.now.tuple (Bytes value.now))) }
    ensures refused { IfSome (insert_refusal page.old key.now.tuple (Bytes value.now))
        (λ e. result ≡ Err e) }
    ensures cause { IfErr result (λ e. (e ≡ error.NoMemory)
        ⊎ (insert_refusal page.old key.now.tuple (Bytes value.now) ≡ Some e)) }
    ensures err { OnErr result (page.new ≡ page.old) }
{
    key.tuple().is_within_limits();
    page.is_in_order();
    spots_tell_keys();
    page.insert_at(spot, key, Body::Value(value))
}

/// Takes a row out again that `put_row` put in, while the clock stays: the frame is what it was
/// before, hashed as it is now. It takes no memory.
pub fn take_back(frame: &mut Frame, place: Place)
    requires { WasPut frame.old place }
    ensures { (f : Frame) (key : FieldList) (value : List ℕ) → PutsRow f frame.old place key value →
        frame.new ≡ hashed_as frame.old f }
{
    match &mut frame.page {
        Some(page) => delete(page, place),
        None => unreachable!(),
    }
}

/// Takes the row at a place out, and the clock goes one up. It takes no memory.
pub fn delete_row(frame: &mut Frame, place: Place)
    requires { HasSomeRow frame.old place }
    ensures done { frame.new ≡ frame_without place frame.old }
    ensures rows { (key : FieldList) → HasRowOf frame.old place key →
        TakesRowOut frame.old place key }
{
    match &mut frame.page {
        Some(page) => delete(page, place),
        None => unreachable!(),
    }
    has_clock(frame);
    frame.raise_clock();
}

/// The clock is at most at its last value.
pub(crate) fn has_clock(frame: &Frame)
    ensures { frame.now.clock ≤ last_clock }
{
    let _clock = frame.clock;
}

/// Takes the row at a place out of the page.
fn delete(page: &mut Page, place: Place)
    requires { IsSome (find_row place page.old.rows) }
    ensures done { page.new ≡ page_without place page.old }
    ensures order { IsPageInOrder page.old }
{
    page.is_in_order();
    page.delete(place);
}

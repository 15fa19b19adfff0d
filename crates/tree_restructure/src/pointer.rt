//! A parent's pointer to a new page.
ghost use Rattle.std.specs.Prelude.{◌≡◌, ◌⊎◌, ℕ, Some, Err, IfOk, IfErr, OnErr, IfSome};
ghost use Rattle.index_page.specs.Rows.{Child, placed_row};
ghost use Rattle.index_page.specs.Page.{IsPageInOrder};
ghost use Rattle.index_page.specs.Changes.{Inserts};
ghost use Rattle.index_page.specs.Refusals.{insert_refusal};
ghost use Rattle.tree_restructure.specs.Pointers.{RangeHas, PointsAround, PutsBehind, pointer_refusal};

use forest_law::Frame;
use index_page::{Body, Page, PageError, Place};
use key_tuple::Key;

/// Puts a pointer to a page in, and tells its place. It stands right behind the pointer in whose range
/// its key is, and the clock stays. After a refusal the frame is as before.
pub fn put_pointer(parent: &mut Frame, key: &Key, child: u32) -> Result<Place, PageError>
    requires { (left : ℕ) × PointsAround parent.old left key.now.tuple }
    ensures ok { IfOk result
        (λ place. PutsBehind place child parent.old parent.new key.now.tuple) }
    ensures refused { IfSome (pointer_refusal parent.old key.now.tuple child)
        (λ e. result ≡ Err e) }
    ensures cause { IfErr result (λ e. (e ≡ PageError.NoMemory)
        ⊎ (pointer_refusal parent.old key.now.tuple child ≡ Some e)) }
    ensures err { OnErr result (parent.new ≡ parent.old) }
{
    match &mut parent.page {
        Some(page) => put_in(page, key, child),
        None => unreachable!(),
    }
}

/// The same of the page.
fn put_in(page: &mut Page, key: &Key, child: u32) -> Result<Place, PageError>
    requires { (left : ℕ) × RangeHas page.old left key.now.tuple }
    ensures ok { IfOk result (λ place. Inserts page.old page.new
        (placed_row place key.now.tuple (Child child))) }
    ensures order { IsPageInOrder page.new }
    ensures refused { IfSome (insert_refusal page.old key.now.tuple (Child child))
        (λ e. result ≡ Err e) }
    ensures cause { IfErr result (λ e. (e ≡ PageError.NoMemory)
        ⊎ (insert_refusal page.old key.now.tuple (Child child) ≡ Some e)) }
    ensures err { OnErr result (page.new ≡ page.old) }
{
    page.is_in_order();
    key.tuple().is_within_limits();
    let outcome = page.insert(key, Body::Child(child));
    page.is_in_order();
    outcome
}

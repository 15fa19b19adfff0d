//! The value of a key.
ghost use Rattle.std.specs.Prelude.{◌≡◌, ◌≢◌, Some};
ghost use Rattle.latch_space.specs.Passes.{count, IsSamePass};
ghost use Rattle.latch_space.specs.Spaces.{IsPassOf};
ghost use Rattle.map_history.specs.Operation as asked;
ghost use Rattle.map_history.specs.Told.{Says, columns_told};
ghost use Rattle.index_page.specs.Page.{PageRows};
ghost use Rattle.tree_law.specs.Pages.{row_pairs};
ghost use Rattle.leaf_changes.specs.Changes.{HasKeyRowIn, HasSpotIn};
ghost use Rattle.engine_law.specs.Tells.{HasKeyOf};
ghost use Rattle.leaf_changes.specs.Holds.{HoldsFreshAlone, HoldsKeyRow};
ghost use Rattle.leaf_changes.specs.Says.{ReadsAndLeaves};
ghost use Rattle.engine_law.specs.Says.{columns_by};
ghost use Rattle.page_view.specs.Finding.{HasRow, HasSpot};

use crate::tree_call::TreeCall;
use forest_world::{ForestPass, Frame};
use index_page::{Page, Place, Spot};
use key_tuple::Key;
use map_history::{OpRef, Reply, RowBuf, Told};
use page_view::find_key;
use tree_descent::Leaf;

impl<R> TreeCall<'_, R> {
    /// Looks the key up on its leaf in hand, and gives that back.
    pub fn get(&self, pass: &mut ForestPass, leaf: &Leaf, out: &mut RowBuf) -> Told
        requires own { IsPassOf self.now.space.now pass.old }
        requires alone { HoldsFreshAlone pass.old leaf.now.block self.now.index
            self.now.key.now.tuple leaf.now.spot }
        ensures own { IsSamePass pass.old pass.new × IsPassOf self.now.space.now pass.new }
        ensures nothing { count pass.new ≡ 0 }
        ensures told { ReadsAndLeaves pass.old leaf.now.block self.now.index
            (asked.Get self.now.key.now.tuple) result out.new pass.new }
        ensures columns { columns_told result ≡ columns_by self.now.found }
        ensures kept { result.reply ≢ Reply.Found → out.new ≡ out.old }
    {
        let op = OpRef::Get {
            index: self.index,
            key: self.key,
        };
        let reply = look_up(self.frame(pass, leaf.block), &leaf.spot, self.key, out);
        let told = self.say(pass, op, reply, Some(out));
        self.let_go(pass, leaf.block);
        told
    }

    /// Reads the key's row, which stands at the place of its leaf in hand, and gives that back.
    pub fn read(&self, pass: &mut ForestPass, block: u32, place: Place, out: &mut RowBuf) -> Told
        requires own { IsPassOf self.now.space.now pass.old }
        requires held { HoldsKeyRow pass.old block self.now.index place self.now.key.now.tuple }
        ensures own { IsSamePass pass.old pass.new × IsPassOf self.now.space.now pass.new }
        ensures nothing { count pass.new ≡ 0 }
        ensures told { ReadsAndLeaves pass.old block self.now.index
            (asked.Get self.now.key.now.tuple) result out.new pass.new }
        ensures columns { columns_told result ≡ columns_by self.now.found }
        ensures found { result.reply ≡ Reply.Found }
    {
        let op = OpRef::Get {
            index: self.index,
            key: self.key,
        };
        let reply = read_row(self.frame(pass, block), place, self.key, out);
        let told = self.say(pass, op, reply, Some(out));
        self.let_go(pass, block);
        told
    }
}

/// What the frame's leaf has at the key. A found row is put in `out`, which else stays.
fn look_up(frame: &Frame, spot: &Spot, key: &Key, out: &mut RowBuf) -> Reply
    requires { HasSpotIn frame.now key.now.tuple spot.now }
    ensures said { (page : PageRows) → frame.now.page ≡ Some page
        → Says (row_pairs page.rows) (asked.Get key.now.tuple) result out.new }
    ensures key { HasKeyOf (asked.Get key.now.tuple) result out.new }
    ensures kept { result ≢ Reply.Found → out.new ≡ out.old }
{
    match &frame.page {
        Some(page) => look_up_in(page, spot, key, out),
        None => unreachable!(),
    }
}

/// The same of a page.
fn look_up_in(page: &Page, spot: &Spot, key: &Key, out: &mut RowBuf) -> Reply
    requires { HasSpot page.now key.now.tuple spot.now }
    ensures said { Says (row_pairs page.now.rows) (asked.Get key.now.tuple) result out.new }
    ensures key { HasKeyOf (asked.Get key.now.tuple) result out.new }
    ensures kept { result ≢ Reply.Found → out.new ≡ out.old }
{
    match find_key(page, key, spot) {
        Some(place) => read_row_in(page, place, key, out),
        None => Reply::Absent,
    }
}

/// The key's row at the place of the frame's leaf is put in `out`.
fn read_row(frame: &Frame, place: Place, key: &Key, out: &mut RowBuf) -> Reply
    requires { HasKeyRowIn frame.now key.now.tuple place }
    ensures said { (page : PageRows) → frame.now.page ≡ Some page
        → Says (row_pairs page.rows) (asked.Get key.now.tuple) result out.new }
    ensures key { HasKeyOf (asked.Get key.now.tuple) result out.new }
    ensures found { result ≡ Reply.Found }
{
    match &frame.page {
        Some(page) => read_row_in(page, place, key, out),
        None => unreachable!(),
    }
}

/// The same of a page.
fn read_row_in(page: &Page, place: Place, key: &Key, out: &mut RowBuf) -> Reply
    requires level { page.now.head.level ≡ 0 }
    requires row { HasRow page.now place key.now.tuple }
    ensures said { Says (row_pairs page.now.rows) (asked.Get key.now.tuple) result out.new }
    ensures key { HasKeyOf (asked.Get key.now.tuple) result out.new }
    ensures found { result ≡ Reply.Found }
{
    key.tuple().is_within_limits();
    out.fill(key, page.row(place).value());
    Reply::Found
}

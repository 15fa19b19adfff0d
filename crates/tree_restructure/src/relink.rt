//! The page behind two halves.
ghost use Rattle.std.specs.Prelude.{◌≡◌, ◌≢◌, Some};
ghost use Rattle.index_page.specs.Page.{linked, IsPageInOrder};
ghost use Rattle.index_page.specs.declared.TheConstants.{NO_PAGE};
ghost use Rattle.tree_restructure.specs.Links.{HasAPage, Relinks};

use forest_law::Frame;
use index_page::Page;

/// Gives the page of a frame another left neighbour. It takes no memory, and the clock stays.
pub fn relink_next(next: &mut Frame, right: u32)
    requires page { HasAPage next.old }
    requires right { right ≢ NO_PAGE }
    ensures { Relinks right next.old next.new }
{
    match &mut next.page {
        Some(page) => relink(page, right),
        None => unreachable!(),
    }
}

/// The same of the page.
fn relink(page: &mut Page, right: u32)
    requires { right ≢ NO_PAGE }
    ensures head { page.new.head ≡ linked page.old.head (Some right) page.old.head.next }
    ensures rows { page.new.rows ≡ page.old.rows }
    ensures order { IsPageInOrder page.new }
{
    page.is_in_order();
    let next = page.head().next;
    page.link(Some(right), next);
    page.is_in_order();
}

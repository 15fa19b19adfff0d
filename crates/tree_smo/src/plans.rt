//! A split that is to be made.
ghost use Rattle.std.specs.Prelude.{◌≡◌, Some};
ghost use Rattle.index_page.specs.Page.{PageRows, IsNeighbour};
ghost use Rattle.tree_restructure.specs.Links.{HasAPage};

use forest_world::Frame;
use index_page::PageHead;
use tree_restructure::Cut;

/// A split that is to be made: which page, under which one, and where.
#[derive(Drop)]
pub(crate) struct SplitPlan {
    /// The block of the parent.
    pub(crate) parent: u32,
    /// The block of the page.
    pub(crate) child: u32,
    /// The head of the page.
    pub(crate) head: PageHead,
    /// Where the page is cut.
    pub(crate) cut: Cut,
    /// The block of the page behind, once that is held.
    pub(crate) next: Option<u32>,
}

/// The head of the frame's page.
pub fn head_of(frame: &Frame) -> PageHead
    requires { HasAPage frame.now }
    ensures head { (page : PageRows) → frame.now.page ≡ Some page → result ≡ page.head }
    ensures next { IsNeighbour result.next }
{
    match &frame.page {
        Some(page) => {
            page.is_in_order();
            *page.head()
        }
        None => unreachable!(),
    }
}

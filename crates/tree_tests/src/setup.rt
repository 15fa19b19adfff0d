//! A space of two empty trees, and a pass of it that holds nothing between two calls.
ghost use Rattle.std.specs.Prelude.{◌≡◌, ◌≤◌, [], ◌∷◌, length};
ghost use Rattle.latch_space.specs.Passes.{view, count};
ghost use Rattle.latch_space.specs.Spaces.{IsPassOf};
ghost use Rattle.buffer_pool.specs.Forests.{IsForest};

use buffer_pool::{PoolError, frame, free_page, give_back, new_page, page_if, page_in};
use forest_world::{ForestPass, ForestSpace, open_forest};
use index_page::PageHead;
use map_history::Sizes;
use std::process::Abort;
use std::sync::Wait;

/// Two indexes, whose keys have one field, and so many pages in all.
#[derive(Drop)]
pub(crate) struct Grove {
    space: ForestSpace,
    pass: ForestPass,
    pages: u32,
    ghost own: { IsPassOf space pass },
    ghost forest: { IsForest space },
    ghost two: { space.terms.shape.indexes ≡ 2 },
    ghost fields: { space.terms.shape.fields ≡ 1 ∷ 1 ∷ [] },
    ghost numbers: { space.terms.shape.pages ≡ pages },
    ghost nothing: { count pass ≡ 0 },
}

/// A page, and the index and the level that it has to have.
pub(crate) type Asked = (u32, u32, u16);

/// The head of a leaf of the first index.
const HEAD: PageHead = PageHead {
    number: 0,
    index: 0,
    level: 0,
    prev: None,
    next: None,
    fields: 1,
};

impl Grove {
    pub(crate) fn open<R: AllocGlobal + Abort>(rt: &R, pages: u32) -> Grove
        requires { (2 ≤ pages) × (pages ≤ 100) }
    {
        let sizes = Sizes {
            blocks: 8,
            pages,
            parts: 1,
            cells: 1,
            nodes: 0,
            fold_bits: 1,
            max_changes: 1,
        };
        let (space, pass) = open_forest(rt.alloc(), &sizes, &[1, 1], 1, 0).expect(rt, "a space");
        Grove { space, pass, pages }
    }

    /// The number of a new page, which is freed again.
    pub(crate) fn new_number<R: AllocGlobal + Wait>(&mut self, rt: &R) -> Result<u32, PoolError> {
        let block = new_page(rt.alloc(), &self.space, &mut self.pass, HEAD, rt)?;
        let number = match &frame(&self.space, &self.pass, block).page {
            Some(page) => page.head().number,
            None => unreachable!(),
        };
        free_page(&self.space, &mut self.pass, block, rt);
        Ok(number)
    }

    /// The block that has the first root in its frame, which is given back.
    pub(crate) fn root_block<R: Wait>(&mut self, wait: &R) -> u32 {
        let block = page_in(&self.space, &mut self.pass, 0, wait);
        give_back(&self.space, &mut self.pass, block);
        block
    }

    /// The block that has the page asked for in its frame, where it is one of the trees with this
    /// index and level. It is given back.
    pub(crate) fn block_of<R: Wait>(&mut self, asked: &Asked, wait: &R) -> Option<u32> {
        let (page, index, level) = *asked;
        if page >= self.pages {
            return None;
        }
        let found = page_if(&self.space, &mut self.pass, page, index, level, wait);
        if let Some(block) = found {
            give_back(&self.space, &mut self.pass, block);
        }
        found
    }
}

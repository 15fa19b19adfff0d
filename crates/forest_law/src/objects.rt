//! What lies under a latch.
use block_ages::Ages;
use hash_partition::Partition;
use index_page::Page;
use key_tuple::Key;
use learning::BlockFigures;

/// A block of the pool: the page that it has, if any, and what is kept of it.
pub struct Frame {
    /// The page.
    pub page: Option<Page>,
    /// Each key of the page is this one or above it; none for the first page of a level.
    pub low: Option<Key>,
    /// Each key of the page is below this one; none for the last page of a level.
    pub high: Option<Key>,
    /// How often a row may have left its place, or the page the frame.
    pub clock: u64,
    /// How searches would be helped by hashing it, and how it is hashed.
    pub figures: BlockFigures,
    /// The index that it is hashed for, if it is.
    pub hashed: Option<u32>,
}

// Written out, so that a crate above drops it by one call.
impl Drop for Frame {
    fn drop(self) {
        let Self {
            page: _,
            low: _,
            high: _,
            clock: _,
            figures: _,
            hashed: _,
        } = self;
    }
}

impl Frame {
    ghost use Rattle.std.specs.Prelude.{◌≡◌};
    ghost use Rattle.clock_law.specs.ModifyClock.{raised};

    /// The clock goes one up, or stays at its last value.
    pub fn raise_clock(&mut self)
        ensures { self.new ≡ record self.old { clock = raised self.old.clock } }
    {
        self.clock = self.clock.saturating_add(1);
    }
}

/// Where a page is.
#[derive(Drop, Clone, Copy)]
pub enum Where {
    /// No page has the number.
    Free,
    /// In a block's frame.
    InFrame(u32),
    /// In its image.
    Image,
}

/// The image of a page: the page with its bounds, outside all frames.
#[derive(Drop)]
pub struct Stored {
    /// The page.
    pub page: Page,
    /// Each key of the page is this one or above it; none for the first page of a level.
    pub low: Option<Key>,
    /// Each key of the page is below this one; none for the last page of a level.
    pub high: Option<Key>,
}

/// Where each page is, the pages that are in no frame, and how long ago each frame was used.
#[derive(Drop)]
pub struct Pool {
    /// Where each page is, by the numbers of the pages.
    pub place: Vec<Where>,
    /// The images, by the numbers of the pages.
    pub images: Vec<Option<Stored>>,
    /// The tick at which each block was last accessed, by the numbers of the blocks.
    pub ages: Ages,
    /// How many accesses there were.
    pub tick: u64,
}

/// The tree of an index.
#[derive(Drop, Clone, Copy)]
pub struct Tree {
    /// The index.
    pub index: u32,
    /// The page that is the root, for good.
    pub root: u32,
    /// The level of the root.
    pub height: u16,
}

/// An object of the space.
#[derive(Drop)]
pub enum Object {
    /// A block's frame.
    Frame(Frame),
    /// A partition of the hash.
    Part(Partition),
    /// The pool.
    Pool(Pool),
    /// An index's tree.
    Tree(Tree),
}

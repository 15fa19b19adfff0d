//! The head of a page.

/// What a page is beside its rows.
#[derive(Clone, Copy)]
pub struct PageHead {
    /// The page's own number.
    pub number: u32,
    /// The number of its index.
    pub index: u32,
    /// 0 for a leaf, and one more for each level above it.
    pub level: u16,
    /// The page before it on its level.
    pub prev: Option<u32>,
    /// The page after it on its level.
    pub next: Option<u32>,
    /// How many fields its keys have.
    pub fields: u8,
}

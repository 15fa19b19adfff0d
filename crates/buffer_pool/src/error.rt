//! Why a page isn't had.

/// Why there is no page.
#[derive(Debug, Clone, Copy, PartialEq, Eq)]
pub enum PoolError {
    /// Each number has a page.
    SpaceFull,
    /// There was no memory.
    NoMemory,
}

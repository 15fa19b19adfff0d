//! The error of a call that can only lack memory.
use std::alloc::AllocError;

/// Memory was refused.
#[derive(Clone, Copy, Debug)]
pub struct NoMemory;

impl From<AllocError> for NoMemory {
    fn from(_: AllocError) -> Self {
        NoMemory
    }
}

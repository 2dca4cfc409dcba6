//! Being out of memory, the one answer that no rule ties to a cause.

use std::alloc::{AllocError, AllocFailed};

/// There was not enough memory. It may be the answer of any call that allocates.
#[derive(Clone, Copy, PartialEq, Eq)]
pub struct Memory;

impl From<AllocError> for Memory {
    fn from(_e: AllocError) -> Memory {
        Memory
    }
}

impl<T: Drop> From<AllocFailed<T>> for Memory {
    fn from(_e: AllocFailed<T>) -> Memory {
        Memory
    }
}

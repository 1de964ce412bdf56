//! The refusal that every crate shares.

use std::alloc::AllocError;
use thiserror::Error;

/// A growth was refused: there was no memory for it. What is then as before, the function says that returns it.
#[derive(Clone, Copy, Debug, PartialEq, Eq, Error)]
#[error("out of memory")]
pub struct Memory;

impl From<AllocError> for Memory {
    fn from(_: AllocError) -> Self {
        Memory
    }
}

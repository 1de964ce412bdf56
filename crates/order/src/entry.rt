//! An access that a detector keeps.

/// An access, as a detector keeps it.
#[derive(Clone, Copy, Debug, PartialEq, Eq)]
pub struct Entry {
    /// The chain of its thread.
    pub line: u32,
    /// The number of its act.
    pub act: u64,
}

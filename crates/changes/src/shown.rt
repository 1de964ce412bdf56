//! What is printed of changes.

use command_line::{MemoryRange, Watched};

/// Which changes are printed, and how.
#[derive(Clone, Copy, Debug)]
pub struct Shown<'a> {
    /// The bytes that change.
    pub watched: Watched,
    /// Whether a line is printed of each change, and not the state before it.
    pub is_short: bool,
    /// The bytes of memory that are printed after it.
    pub ranges: &'a [MemoryRange],
}

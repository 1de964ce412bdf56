//! How a recorder waits for the flusher.

use std::sync::Wait;

/// How a recorder waits for the flusher. No contract says how long: it tries again after each pause.
pub trait Pause {
    /// Waits a little, or until the flusher has committed something.
    fn pause<R: Wait>(&self, rt: &R);
}

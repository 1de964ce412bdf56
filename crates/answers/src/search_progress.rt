//! How far a search is.

use progress::{Clearing, Meter};
use reverse_step::SearchWatch;
use std::io::Write;
use std::sync::atomic::{AtomicBool, Ordering};
use std::time::Clock;

/// Shows how far a search is in a recording.
#[derive(Drop)]
pub(crate) struct SearchProgress<'a, R: Clock, E: Write + Drop> {
    meter: Meter<'a, R>,
    error: Clearing<'a, E>,
    is_shown: &'a AtomicBool,
    instructions: u64,
    is_on: bool,
}

impl<'a, R: Clock, E: Write + Drop> SearchProgress<'a, R, E> {
    /// Shows it on this stream, where `is_shown` says whether a line is shown; nothing where `is_on` is false. The recording has so many
    /// instructions.
    pub(crate) fn new(
        rt: &'a R,
        error: E,
        is_shown: &'a AtomicBool,
        instructions: u64,
        is_on: bool,
    ) -> Self {
        SearchProgress {
            meter: Meter::new(rt),
            error: Clearing::new(error, is_shown, true),
            is_shown,
            instructions,
            is_on,
        }
    }

    /// A search may begin: the line isn't written in its first quarter of a second.
    pub(crate) fn begin(&mut self) {
        self.meter.restart();
    }

    /// Clears the line.
    pub(crate) fn clear(&mut self) {
        self.error.clear();
    }
}

impl<R: Clock, E: Write + Drop> SearchWatch for SearchProgress<'_, R, E> {
    fn reached(&mut self, place: u64) {
        if !self.is_on || !self.meter.is_due() {
            return;
        }
        let _ = write!(self.error, "{place} of {} instructions", self.instructions);
        let _ = self.error.flush();
        self.is_shown.store(true, Ordering::SeqCst);
    }
}

//! How far a verification is.

use progress::{Clearing, Count, Extent, Meter};
use replayer::Watch;
use std::io::Write;
use std::sync::atomic::{AtomicBool, Ordering};
use std::time::Clock;

/// Shows how far a verification is.
#[derive(Drop)]
pub struct VerifyProgress<'a, R: Clock, E: Write + Drop> {
    meter: Meter<'a, R>,
    error: Clearing<'a, E>,
    is_shown: &'a AtomicBool,
    all: Count,
    is_on: bool,
}

impl<'a, R: Clock, E: Write + Drop> VerifyProgress<'a, R, E> {
    /// Shows it on this stream, where `is_shown` says whether a line is shown; nothing where `is_on` is false. `all` is how much is to
    /// be verified.
    pub fn new(rt: &'a R, error: E, is_shown: &'a AtomicBool, all: Count, is_on: bool) -> Self {
        VerifyProgress {
            meter: Meter::new(rt),
            error: Clearing::new(error, is_shown, true),
            is_shown,
            all,
            is_on,
        }
    }

    /// Clears the line.
    pub fn end(mut self) {
        self.error.clear();
    }
}

impl<R: Clock, E: Write + Drop> Watch for VerifyProgress<'_, R, E> {
    fn verified(&mut self, records: usize, instructions: u64) {
        if !self.is_on || !self.meter.is_due() {
            return;
        }
        let extent = Extent {
            done: Count {
                records: records as u64,
                instructions,
            },
            of: Some(self.all),
        };
        let _ = write!(self.error, "{extent}");
        let _ = self.error.flush();
        self.is_shown.store(true, Ordering::SeqCst);
    }
}

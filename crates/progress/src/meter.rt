//! How often a line is written.

use std::time::{Clock, Duration, Instant};

/// How long a line stands at least, in milliseconds.
const PAUSE: u64 = 250;

/// Tells when a line may be written: at most four times a second, and not in the first quarter.
#[derive(Drop)]
pub struct Meter<'a, R: Clock> {
    rt: &'a R,
    last: Option<Instant>,
}

impl<'a, R: Clock> Meter<'a, R> {
    /// A meter that begins now.
    pub fn new(rt: &'a R) -> Self {
        Meter {
            rt,
            last: Instant::now(rt).ok(),
        }
    }

    /// Begins anew.
    pub fn restart(&mut self) {
        self.last = Instant::now(self.rt).ok();
    }

    /// Whether a line may be written now. Then none may be for a while.
    pub fn is_due(&mut self) -> bool {
        let Ok(now) = Instant::now(self.rt) else {
            return false;
        };
        let is_due = match self.last {
            Some(last) => Duration::from_millis(PAUSE) <= now.duration_since(last),
            None => true,
        };
        if is_due {
            self.last = Some(now);
        }
        is_due
    }
}

//! The host's clocks, as a guest is told them.

ghost use Rattle.std.specs.Prelude.{◌≡◌, ◌≤◌};
ghost use Rattle.std.specs.Duration.{as_nanos};
ghost use Rattle.std.specs.Time.{FitsClock};

use std::time::{Clock, Duration, Instant, SystemTime, UNIX_EPOCH};

/// The host's clocks for one guest: the real one, and one that counts from a start and never goes back.
#[derive(Drop)]
pub(crate) struct HostClocks<'a, R: Clock> {
    rt: &'a R,
    start: Instant,
    last: Duration,
    ghost fits: { FitsClock (as_nanos last) },
}

impl<'a, R: Clock> HostClocks<'a, R> {
    /// The clocks of a host. The monotonic one counts from `start`.
    pub(crate) fn new(rt: &'a R, start: Instant) -> Self
        ensures { as_nanos result.last ≡ 0 }
    {
        HostClocks {
            rt,
            start,
            last: Duration::ZERO,
        }
    }

    /// The time since the start of 1970 (UTC); zero where the host can't tell it, or tells one before 1970.
    pub(crate) fn real(&self) -> Duration
        ensures { FitsClock (as_nanos result) }
    {
        let Ok(now) = SystemTime::now(self.rt) else {
            return Duration::ZERO;
        };
        match now.duration_since(UNIX_EPOCH) {
            Ok(passed) => passed,
            Err(_) => Duration::ZERO,
        }
    }

    /// The time since the start. Where the host can't tell it, or tells an earlier one than before, it is the last one given.
    pub(crate) fn monotonic(&mut self) -> Duration
        ensures last { result ≡ self.new.last }
        ensures later { as_nanos self.old.last ≤ as_nanos result }
        ensures fits { FitsClock (as_nanos result) }
    {
        if let Ok(now) = Instant::now(self.rt) {
            let passed = now.duration_since(self.start);
            if passed.as_nanos() > self.last.as_nanos() {
                self.last = passed;
            }
        }
        self.last
    }
}

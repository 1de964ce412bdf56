//! The environment of a guest that follows a recording.

ghost use Rattle.std.specs.Prelude.{◌≡◌, ◌++◌, ◌≤◌, ◌<◌, ◌^◌, IfSome, drop, length, min, take};
ghost use Rattle.std.specs.Int.{w64, from_le_bytes};
ghost use Rattle.serial_sched.specs.Answered.{answered, moment_in, Recalls};

use guest_calls::Outside;
use rrv_model::record::CallRecord;

/// An environment that answers what a recorded call was answered: the bytes that the call wrote first.
#[derive(Drop)]
pub(crate) struct Recorded<'a> {
    bytes: &'a [u8],
}

impl<'a> Recorded<'a> {
    /// The answers to the call that told this.
    pub(crate) fn of(told: &'a CallRecord) -> Self
        ensures { result.bytes.now ≡ answered told.now.written }
    {
        match told.written.as_slice().first() {
            Some(range) => Recorded {
                bytes: range.bytes.as_slice(),
            },
            None => Recorded { bytes: &[] },
        }
    }
}

impl Outside for Recorded<'_> {
    ghost gives = { λ old question answer new. Recalls old.bytes.now question answer };

    fn read(&mut self, into: &mut [u8]) -> usize {
        copy(self.bytes, into)
    }

    fn random(&mut self, into: &mut [u8]) {
        let _ = copy(self.bytes, into);
    }

    fn now(&mut self, _clock: u32) -> (u64, u32) {
        match moment_of(self.bytes) {
            Some(moment) => moment,
            None => (0, 0),
        }
    }
}

/// Copies as many bytes as fit, and answers how many.
fn copy(from: &[u8], into: &mut [u8]) -> usize
    ensures count { result ≡ min (length from.now) (length into.old) }
    ensures bytes { into.new ≡ take result from.now ++ drop result into.old }
{
    let len = from.len().min(into.len());
    into[..len].copy_from_slice(&from[..len]);
    len
}

/// The 64-bit number of the first 8 bytes, its low byte first.
fn first_u64(bytes: &[u8]) -> u64
    requires { 8 ≤ length bytes.now }
    ensures { result ≡ from_le_bytes w64 bytes.now }
{
    u64::from_le_bytes([
        bytes[0], bytes[1], bytes[2], bytes[3], bytes[4], bytes[5], bytes[6], bytes[7],
    ])
}

/// Seconds and nanoseconds, as clock_gettime(2) writes them: two numbers of 8 bytes.
fn moment_of(bytes: &[u8]) -> Option<(u64, u32)>
    ensures moment { result ≡ moment_in bytes.now }
    ensures bounds { IfSome result (λ moment. (moment.0 < 2 ^ 63) × (moment.1 < 10 ^ 9)) }
{
    if bytes.len() != 16 {
        return None;
    }
    let seconds = first_u64(bytes);
    let nanoseconds = first_u64(&bytes[8..]);
    if seconds >= 1 << 63 || nanoseconds >= 1_000_000_000 {
        return None;
    }
    Some((seconds, nanoseconds as u32))
}

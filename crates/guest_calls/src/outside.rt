//! What a guest's calls may ask the outside.

ghost use Rattle.std.specs.Prelude.{◌≤◌, ◌<◌, ◌^◌, length, take};
ghost use Rattle.rrv_model.specs.Calls.{Answer, Bytes, Time};
ghost use Rattle.guest_calls.specs.Asking.{Question, Input, Random, Clock};

/// The outside of a guest: its input, random bytes and the time.
pub trait Outside {
    /// What it may answer to a question, and what it then is.
    ghost gives: { Self → Question → Answer → Self → Type 0 };

    /// Fills a beginning of `into` with the next input, and answers its length in bytes; 0 at the end of the input.
    fn read(&mut self, into: &mut [u8]) -> usize
        ensures len { result ≤ length into.old }
        ensures gives { gives self.old (Input (length into.old)) (Bytes (take result into.new)) self.new };

    /// Fills `into` with random bytes.
    fn random(&mut self, into: &mut [u8])
        ensures gives { gives self.old (Random (length into.old)) (Bytes into.new) self.new };

    /// Seconds and nanoseconds of a clock: 0 is the real time, 1 the monotonic one.
    fn now(&mut self, clock: u32) -> (u64, u32)
        ensures seconds { result.0 < 2 ^ 63 }
        ensures nanoseconds { result.1 < 10 ^ 9 }
        ensures gives { gives self.old (Clock clock) (Time result.0 result.1) self.new };
}

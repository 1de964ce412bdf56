//! What a recorded guest gets from the host: its input, its random bytes, the time, and the streams that its output goes to.
//!
//! Tests: program_tests; `cases.scenes` and `cases.host` run it.
//!
//! # Contracts
//!
//! - `HostOutside`: an environment. Input is read in order, as much as there is and is asked for, and each guest reads it from its
//!   start. Random bytes are the next ones of a stream that seed and guest determine: the SHA-256 of the two and a counter, for
//!   each counter in turn. The monotonic clock never goes back. That a clock tells the right time is in no contract.
//! - `opening_random`: the first 16 bytes of the SHA-256 of seed, guest and 2^32 - 1.
//! - `Streams` and `StreamSink`: output and errors under one lock. A call that fails is counted. Which bytes reach a stream is
//!   proved of the call under the lock, and in no contract of the sink's: tests see them. So is whether guests left a line open.
//! - `Patient`: a stream that gains just the bytes that it says it took. That it waits is in no contract: tests see it.
#![tactic(auto)]

mod clocks;
mod host_outside;
mod patient;
mod random;
mod streams;

pub use host_outside::HostOutside;
pub use patient::Patient;
pub use random::opening_random;
pub use streams::{StreamSink, Streams};

//! Why a recording was not made, not verified or not shown at a place: the faults of `session`, `replayer` and `reverse_step`, which
//! return them and give them on under their own names. They are plain values, so a crate that prints them stands on none of the three.
//!
//! Tests: program_tests; session_tests and replay_cases, where they are returned.
//!
//! # Contracts
//!
//! None: when each is returned the functions say that return it. Want of memory becomes the fault's own `Memory`.
#![tactic(auto)]

mod replay;
mod seek;
mod session;

pub use replay::{ClaimFault, OutputFault, VerifyFault};
pub use seek::SeekFault;
pub use session::SessionFault;

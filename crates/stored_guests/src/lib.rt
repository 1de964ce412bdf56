//! The guests of stores, verified as they are read.
//!
//! Tests: program_tests; `cases.lines` and `cases.scenes` run the program.
//!
//! # Contracts
//!
//! - `verified_in`: the records of the guest of a number, or where they end, verified as they are read from the disk.
//!   `NoSuchGuest` comes exactly if the store has none of that number, and other refusals are those of `verify_source`. This is
//!   said of an honest disk on which the records stand; a file isn't one.
//! - `verified`: the record that it reports as unreadable is one that the source says it withheld.
//!   `StoredGuest`, the source over a store, says so of the place that it was last asked for and did not give.
#![tactic(auto)]

mod stored;
mod verify_progress;
mod verifying;

pub use stored::StoredGuest;
pub use verify_progress::VerifyProgress;
pub use verifying::{verified, verified_in, verified_of, workers};

//! Verifies a guest's records in spans between its checkpoints, several side by side.
//!
//! Tests: replay_cases, program_tests.
//!
//! # Contracts
//!
//! - A `Standing` is where a guest stands behind its records: their number, what they count, the last checkpoint's state and the
//!   parts since, and the state there (`replayer`). Records lead along from one standing to another (`LeadAlong`), or stop at the
//!   first that doesn't lead on (`StopsAlong`).
//! - `spans_lead_along`, `least_stop_is_first` (laws): if each span leads from the claim before it to its own, all records lead
//!   along; and where a span stops, of which each before it leads to its claim, the first record of all that doesn't lead on is
//!   the span's.
//! - `follow_in_spans`: whatever the number of workers, the guest stands where the records lead it, or the fault names the first
//!   that doesn't lead on. `Memory` may come for any records but none. How many spans there are, where they are cut, and that
//!   they run at once is in no contract.
//! - `verify_source`, `verify_source_end`: what those of `replayer` ensure, clause for clause: of an honest source, of what is
//!   kept, of a refusal and of what the source withheld. Records are read ahead of those that are followed (`Source::ahead`);
//!   one that isn't given so is asked for when those before it are verified, and `Unreadable` if it is withheld then.
#![tactic(auto)]

mod cutting;
mod following;
mod keeping;
pub mod laws;
mod reading;
mod verifying;

pub use following::follow_in_spans;
pub use verifying::{verify_source, verify_source_end};

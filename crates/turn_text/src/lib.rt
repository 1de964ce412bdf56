//! The text of frames with their places, and as events of a trace.
//!
//! Tests: slice_cases; `cases.turns` and `cases.lines` run the program.
//!
//! # Contracts
//!
//! - `PlacesLine`, `EventText`: the exact text of a record's places and of its trace event.
//! - `call_numbers_are_kept`: the number by which an event names a call is the one that was in a7 when the call was made.
#![tactic(auto)]

mod events;
mod laws;
mod places;
mod records;

pub use laws::call_numbers_are_kept;
pub use records::{EVENTS_END, EventText, PlacesLine};

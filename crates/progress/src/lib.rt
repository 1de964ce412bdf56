//! The line that shows how far a command is, on standard error.
//!
//! Tests: none; `cases.progress` runs the program.
//!
//! # Contracts
//!
//! What the line has that shows how far a command is: how often it is written (`Meter`), its text (`Extent`), and `Clearing`, a stream that
//! clears it before it writes. The crates that record, verify and search show it. None has a contract: `cases.progress` looks at them.
#![tactic(auto)]

mod clearing;
mod extent;
mod meter;

pub use clearing::Clearing;
pub use extent::{Count, Extent};
pub use meter::Meter;

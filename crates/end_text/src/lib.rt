//! The lines that say how a guest ended, and what comes next at a place.
//!
//! Tests: none; `cases.turns` and `cases.lines` run the program.
//!
//! # Contracts
//!
//! - `EndLines`: the exact lines, over the state at the end, the place and the thread that ran last.
//! - `WhereLine`: the exact line of a place, over the state there and a thread, which `ask` prints.
//! - `faults_are_told`: after a slice that ends in a fault, the reported thread is there. For a load or a store one of the
//!   bytes that the instruction takes from the reported address on may not be read or written. For a fetch one of four may not
//!   be executed. A misaligned address is no multiple of 4.
#![tactic(auto)]

mod end_lines;
mod faulting;
mod laws;
mod where_line;

pub use end_lines::EndLines;
pub use laws::faults_are_told;
pub use where_line::WhereLine;

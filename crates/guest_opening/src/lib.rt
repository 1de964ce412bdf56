//! The opening of a guest: the memory and the thread with which it starts.
//!
//! Tests: guest_tests, machine_cases.
//!
//! # Contracts
//!
//! - `open_space`, `opening_thread`: the memory and the first thread of the opening state of an image.
//! - `opening_keeps_rules`: the opening state of every accepted file meets the rules of a state.
#![tactic(auto)]

mod opening;

pub use opening::{has_bytes, open_space, opening_keeps_rules, opening_thread};

//! What a call of any crate may return: that there was no memory, and how many calls of a device or a sink have failed.
//!
//! Tests: none; the crates above go by it.
//!
//! # Contracts
//!
//! None but the definitions of `specs/Failures.antt`, and small laws of lists and results in `proofs/`.
#![tactic(auto)]

pub mod refusal;

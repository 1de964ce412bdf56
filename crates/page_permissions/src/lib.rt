//! What may be done with the bytes of a page, and small laws of maps from numbers.
//!
//! Tests: none; the crates above go by it.
//!
//! # Contracts
//!
//! None but the laws of `proofs/`.
#![tactic(auto)]

mod page;

pub use page::Permissions;

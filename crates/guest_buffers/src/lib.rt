//! Lists of buffers in a guest's memory, each a base and a length, as writev(2) has them.
//!
//! Tests: machine_cases.
//!
//! # Contracts
//!
//! - `list_buffers`, `total_len`: the buffers of a list that can be read, and the sum of their lengths.
//! - `join_buffers`: the first 65,536 bytes of them, one after another, exactly if these can be read.
#![tactic(auto)]

mod lists;

pub use lists::{join_buffers, list_buffers, total_len};

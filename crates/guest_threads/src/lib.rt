//! The threads of a guest: by tid, with the waiting order and the next tid.
//!
//! Tests: machine_cases.
//!
//! # Contracts
//!
//! The threads of a guest, with its version. Its invariant is the rules of a state: at most as many live as the version allows,
//! timeouts only where it has them, no tid used again, each waiting thread once in the waiting order.
//!
//! - `spawn`, `wait`, `wake`, `exit`, `expire`: the changes of the definitions. Each refusal comes exactly if it applies, out of memory
//!   aside.
//! - `from_parts`: the threads that a checkpoint has. Refused exactly if no state has such threads, out of memory aside.
//! - `to_parts`: the threads as a checkpoint has them; `from_parts` of them gives the same threads.
//! - `running`, `has_running`: the tids of the threads that run, and whether one does. `has_timed`: whether one waits with a
//!   timeout.
#![tactic(auto)]

mod by_tid;
mod changes;
mod fault;
mod parts;
mod threads;

pub use fault::{PartsFault, ThreadFault};
pub use threads::Threads;

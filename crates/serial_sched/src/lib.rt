//! Slices of a guest: one thread at a time, each slice a frame.
//!
//! Tests: slice_tests, slice_cases.
//!
//! # Contracts
//!
//! - `slice`: a frame by which the old state leads to the new one, within the choice. A preempt is cut short only if the next
//!   instruction may take memory. The refusals come in their order. A call's frame has an answer that the environment gave.
//! - `expire`: the frame in which a thread's timed wait ends. Refused exactly if the guest has ended, else if the thread has no such
//!   wait. That its time is over is the caller's to see.
//! - `follow`: Ok exactly if the frame leads on from the state, out of memory aside. Then the guest has the state after.
//! - `steps`: n plain steps of a thread, likewise.
//! - `Chooser`: a relation says what it chooses of the runnable threads and what it becomes, and each `next` keeps it.
//!   `RoundRobin`, `Listed`: which thread comes next, while a list has choices. `AreChosen` says of frames that each is the
//!   slice of what a chooser chose in the state before it.
#![tactic(auto)]

mod chooser;
mod comparison;
mod fault;
mod following;
mod recorded;
mod slices;

pub use chooser::{Chooser, Listed, RoundRobin, can_choose};
pub use fault::{FollowFault, SliceFault};
pub use following::{follow, steps, watched_steps};
pub use slices::{expire, slice};

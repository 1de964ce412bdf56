//! Checkpoints of a guest: parts that, put onto the state of their base, give the state that they were made of.
//!
//! Tests: guest_tests, replay_cases.
//!
//! # Contracts
//!
//! - `apply`: after Ok the parts describe the guest's new state, against the state that it had. `BadPart` comes exactly if they
//!   describe no state, the limit on its pages aside; `TooManyPages` only if the state that they describe has more pages than a
//!   guest may have; `Memory` only if they describe a state, that limit aside. After `BadPart` the guest is as before. Its
//!   snapshots and its count of steps stay.
//! - `make`: parts that have a text, and that describe the guest's state against each state that has the memory of the snapshot
//!   and the guest's version and opening break, if the guest has not ended and holds no reservation. They name exactly the pages that
//!   differ from the snapshot's in bytes, in permissions or in being mapped. A page that is mapped has the line mask of its
//!   bytes against the snapshot's, or against zeros if that has no such page; another one is named as not mapped, with the mask
//!   0.
//! - `are_same_parts`: whether the parts of two checkpoints are equal, in each field.
//! - `recorder` makes checkpoints by `make`. `replayer` puts them onto a guest, and compares them with those that are made there.
//!   Rows of `replay_cases` and `cases.scenes` see both.
#![tactic(auto)]

mod applying;
mod comparison;
mod fault;
mod fitting;
mod making;
mod pages;

pub use applying::apply;
pub use comparison::are_same_parts;
pub use fault::ApplyFault;
pub use making::make;

//! A guest: its opening state, its instructions and its calls.
//!
//! Tests: guest_tests, guest_cases.
//!
//! # Contracts
//!
//! A guest. Its state meets the rules of a state at all times.
//!
//! - `Guest::open`: the opening state. `Guest::start`: that of an opening, refused exactly if there is none, out of memory aside.
//!   `starting_image`: the image of the file with which a guest of a name starts, refused likewise.
//! - `run_thread`, `step_thread`: n plain steps, and what ended them.
//! - `call`: a row of the call relation, with an answer that the environment gave to the row's question. The environment is
//!   asked once at most, and not if the row doesn't ask. At a refusal it was not asked.
//! - `expire`: the timed wait of a thread ends. Refused exactly if there is no such wait. `has_timed`: whether there is one.
//! - `version`: the rules by which the guest runs. No call changes it.
//! - `put_out`, `take_put`: the output of the last call; the second leaves none in its place, and the recorder uses it.
//! - `take_back`: the state before the ECALL.
//! - `try_clone`: the same state once more, as many instructions run, no snapshot, and no output.
//! - `snapshot`, `drop_snapshot`: the memory is kept, and let go. The state stays.
//! - `set_page`: the memory with that page as given. Refused exactly if no state has such a page or too many would be mapped,
//!   out of memory aside.
//! - `set_rest`: the state with the rest of a checkpoint. Refused exactly if no state comes of it, out of memory aside.
#![tactic(auto)]

mod asking;
mod calls;
mod changes;
mod clone;
mod fault;
mod futex;
mod guest;
mod memory_calls;
mod memory_changes;
mod open;
mod opening;
mod outside;
mod parts;
mod put;
mod request;
mod room;
mod steps;
mod writev;

pub use fault::{OpeningFault, SetPageFault, SetRestFault};
pub use guest::Guest;
pub use opening::starting_image;
pub use outside::Outside;
pub use put::Put;
pub use rv_machine::{Run, RunEnd};

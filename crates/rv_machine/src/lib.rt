//! Instructions of a hart, one or several: RV32I, Zifencei, M and A, at user level
//! (RISC-V Unprivileged ISA 20191213, chapters 2, 3, 7 and 8).
//!
//! Tests: guest_tests, machine_cases.
//!
//! # Contracts
//!
//! - `step`: the plain step of RV32I, Zifencei, M and A on every input. A fault leaves registers, memory and reservation as
//!   they were.
//! - `run_hart`: n of these steps, and what ended them. `run_watched`: the same, and how many of n plain steps there are up to
//!   the last that changes the byte at an address.
//! - `CodeSpace`: an address space (`AddressSpace`) that keeps pages of instructions decoded. Contracts see the space alone.
//!   Its invariant: a decoded page has 1,024 instructions, each decoded from the word that stands there, in bytes that may be
//!   executed and that no store may change. What maps, protects, unmaps or puts in pages lets their decoded pages go; a `fill`
//!   of bytes that no store may change lets all go.
//!
//! The instructions of a decoded page run in stretches from jump to jump (`run_page`, `watch_page`); another one is fetched and decoded
//! where it stands (`step`). Both go on in `perform`, which is given the instruction's page and index and tells where the hart goes on and
//! where it stored (`Flow`), and it in `compute`, `memory` and `atomic`.
#![tactic(auto)]

mod access;
mod atomic;
mod code_space;
mod code_space_calls;
mod compute;
mod decoded;
mod decoded_pages;
mod flow;
mod hart;
mod memory;
mod page_decoding;
mod page_index;
mod page_slots;
mod registers;
mod run;
mod values;
mod watching;

pub use code_space::CodeSpace;
pub use hart::step;
use rrv_model::machine::FaultKind;
pub use run::{Run, RunEnd, run_hart};
pub use watching::{WatchedRun, run_watched};

/// What one instruction came to.
#[derive(Clone, Copy, Debug, PartialEq, Eq)]
pub enum Stepped {
    /// It is done, and the hart goes on.
    Next,
    /// It is an ECALL, and `pc` is past it.
    Call,
    /// It failed, and changed no register, no memory and no reservation.
    Fault(FaultKind),
}

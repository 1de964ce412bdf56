//! The lines that are printed of records and of states, and the digest of a memory.
//!
//! Tests: replay_cases; `cases.scenes` and `cases.lines` run it.
//!
//! # Contracts
//!
//! - `RecordLine`, `VerifyLine`, `ListLine`, `ReportLine`, `EndText`: the exact text of each line.
//! - `StateLines`: the exact lines of a guest's state at a place: its end, its break, its reservation, its threads by rising
//!   tid with their registers, and the digest of its pages. `digest_of`: SHA-256 of all mapped pages by rising number, each as
//!   its number, its permissions and its bytes. `replay --at`, `back` and `last` print these.
//! - `ThreadLines`: the exact lines of the threads alone, which `ask` prints.
//! - `write_each`: the texts of a guest's threads, as a `ThreadText` writes each, by rising tid.
//! - `MemoryLines`: the exact lines of a range of memory, which `--memory` adds to the state.
#![tactic(auto)]

mod each_thread;
mod fault_names;
mod guest_lines;
mod memory_digest;
mod memory_lines;
mod state_lines;
mod text;

pub use each_thread::{ThreadText, write_each};
pub use fault_names::fault_name;
pub use guest_lines::{ListLine, ReportLine};
pub use memory_digest::digest_of;
pub use memory_lines::MemoryLines;
pub use state_lines::{StateLines, ThreadLines};
pub use text::{EndText, RecordLine, VerifyLine, write_word, written_bytes};

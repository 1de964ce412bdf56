//! A core file of a guest: its threads and its memory, for a debugger.
//!
//! Tests: none; `cases.cores` runs the program.
//!
//! # Contracts
//!
//! An ELF core file of a guest's state (System V ABI, class ELF32; a note as Linux has it for RV32).
//!
//! - `CoreFile::new`, `write_to`: what is written after an `Ok` is `core_of` of the thread that comes first and the guest's
//!   state, byte for byte: headers, a note for each thread, and the pages in runs, but for the blank ones at a run's end.
//! - `runs_are_found`: the runs of a memory of whole pages are as long as can be, all pages of one have its flags, each mapped
//!   page lies in one, and of its pages just those after the last that isn't blank are left out of the file.
//! - `headers_are_true`: where the program headers lead stand the notes, and the bytes of each run.
//!
//! That a debugger reads the file so is tried, and not proved; `tools/run core_file` is one more reader, which tests all fields.
#![tactic(auto)]

mod core_file;
mod counts;
mod headers;
mod laws;
mod notes;
mod numbers;
mod runs;

pub use core_file::CoreFile;
pub use laws::{headers_are_true, runs_are_found};

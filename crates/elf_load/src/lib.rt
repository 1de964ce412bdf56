//! Static ELF32 executables for RISC-V: the image that a guest starts from, or why there is none.
//!
//! Tests: machine_cases.
//!
//! # Contracts
//!
//! - `parse`: the image of the file, else the lowest refusal that applies.
#![tactic(auto)]

mod elf_file;
mod fault;
mod header;
mod image;
mod limits;
mod loads;
mod numbers;
mod overlap;

pub use fault::ElfFault;
pub use header::ProgramHeader;
pub use image::{Image, parse};

//! What tests share: words of instructions, registers and threads, permissions, small ELF files, guests of these, also recorded with
//! checkpoints, outsides, bytes as text, and cases that are lines of text.
#![tactic(auto)]

pub mod bytes;
pub mod cases;
pub mod files;
pub mod harts;
pub mod outsides;
pub mod permissions;
pub mod recorded;
pub mod trial;
pub mod words;

//! Words and instructions: the instruction table of RV32I, Zifencei, M and A, both ways
//! (RISC-V Unprivileged ISA 20191213).
//!
//! Tests: guest_tests, machine_cases.
//!
//! # Contracts
//!
//! - `decode`: the instruction exactly if the table relates it to the word, else None.
//! - `encode`: a word of that instruction. It is the word that was read, save for FENCE and FENCE.I.
//! - `one_answer`: a word has one answer, an instruction that it stands for or none.
//! - `decode_encoded`: decoding what was encoded gives the instruction back.
#![tactic(auto)]

mod decoder;
mod encoder;
pub mod laws;
mod rows;
mod word;

pub use decoder::decode;
pub use encoder::encode;

//! Tests of the call that does a line, and of what no line of the built program comes to: refusals that no store or guest brings about, clocks
//! and streams that are made up, and a want of memory. They stand apart from its crates, so that these are proved without them.
//!
//! # What they show
//!
//! - The program: the texts of its refusals; what guests get from clocks and streams that fail; what verifying and a cursor leave where no
//!   memory is found; which record is named where one isn't given, and which of spans is the first bad one; and what is reported if the
//!   Mark doesn't fit into a full store. The line of no words, a refusal and a bad line are done by `run`; all others are tried by
//!   `cases.lines` and `cases.scenes`.
#![tactic(auto)]

#[cfg(test)]
mod tests;

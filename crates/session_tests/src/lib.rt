//! Tests of sessions: guests recorded at once by threads, and found again.
//!
//! # What they show
//!
//! - Sessions: the output of each guest, and that of the replay of its records, is what its text outputs, for sixteen guests at once
//!   and for two of which a gate lets each wait for the other. A guest that a gate holds leaves its opening, and the others all of
//!   their records. A guest whose sink fails is told by its place, and the others output all of theirs, and leave all of their records.
//!   A first sync that fails leaves no guest and no output. Guests of sessions one after another have the next numbers. At each other
//!   call of the disk, sessions are stopped from outside, by `cases.stopped_sessions`.
//! - Deadlines: a recorder by itself wakes threads whose timed waits are over, by a clock whose answers a test lists. Each question
//!   is counted, and each recording verifies with no clock, but not those of refused growths.
//! - Refusals: if jobs have bad names or files, the first of these is reported. A store that has as many segments as one may
//!   have is reported as full. The store, the jobs and their sinks are then as before.
#![tactic(auto)]

#[cfg(test)]
mod tests;

//! What the line `record` does.
//!
//! Tests: program_tests; `cases.lines` and `cases.scenes` run the program.
//!
//! # Contracts
//!
//! - `record_images` (private): if it returns Ok, the log has more bodies behind those that it had, and of what is recovered
//!   from all of these the records of each program are a recording that begins with its opening: its file, its name and its
//!   random bytes. The program's report says how many records these are, and the end of the state that they end in. `record`
//!   calls it over a file, and the line of no words over a disk in memory.
//! - `jobs_of` of `jobs` (private): the jobs of a recording are those of the programs, in the order of the line: its
//!   file, its name, the random bytes of its place, the input from its start, how far apart its checkpoints are, and
//!   its plan: the choices of its list, and then turns of the quantum, or nothing, up to the limit of instructions, if
//!   there is one. That `record` reads the files and hands these jobs on is tested.
//! - `Limited` (private): without a limit it chooses just what the schedule does. With one it chooses that for as many instructions
//!   or for fewer, or nothing. That it ends at the limit is tested. Only to a guest of version 2 it may give its last choice again. That
//!   it does so exactly if a wait ended in its place is tested.
//! - `lasts_of`, `misfits_of` (private): of each job the thread that its schedule chose last, and the first choice that didn't
//!   fit.
//! - `print_reports` (private): if it returns Ok, a writer that tells its bytes got just the line of each reported guest and,
//!   unless its last thread exited, what ended it. What is reported of the guests beside one whose output failed is tested.
//! - `upgraded` (private): the log holds the Mark if the line asks for that, and else it is as it was. It refuses only if that is
//!   asked for, as `marked` of `line_io` does. What is recorded after `--upgrade` is recorded to such a log.
//! - `Outcome::of_reports` (private): that a guest failed is told exactly if that is asked for, and one ended otherwise than by an
//!   exit with 0.
#![tactic(auto)]

mod choice_files;
mod ended;
mod example;
mod exit_five;
mod jobs;
mod limited;
mod misfits;
mod names;
mod outcome;
mod programs;
mod record_progress;
mod reports;
mod shared;

pub use example::record_example;
pub use outcome::Outcome;
pub use programs::record;

//! What the lines of the program do.
//!
//! Tests: program_tests; `cases.lines` and `cases.scenes` run it.
//!
//! # Contracts
//!
//! - `copy_to` (private): what `copying::copy_guest` promises of the two disks, whether the line is printed or not; and if it returns
//!   Ok, a writer that tells its bytes got the line of the guest under its new number. If there is none, nothing is done. A refusal is the
//!   one that `copy_guest` has, a failure aside, and nothing is printed before it. That a store is not copied to itself is tested.
//! - `Piped::told` (private): failed output is told as a reader who went away only if one was found to have gone.
//! - `print_program` (private): if it returns Ok, a writer that tells its bytes got the line of the program: its entry, the pages
//!   of its guest's opening state, and its break. In which words a file is refused is tested.
//! - `run`: status 2 only for a bad line, 0 never for one, and 3 only for a recording that is to tell whether a guest
//!   failed. A call of help ends with 0 or 1: no contract says that its output failed.
#![tactic(auto)]

mod checking;
mod copies;
mod demonstration;
mod piped;
mod running;

pub use running::{report, report_unread, run, run_on};

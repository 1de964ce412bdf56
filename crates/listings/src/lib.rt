//! What the lines of the program print of the guests of a store, and of their records.
//!
//! Tests: program_tests; `cases.lines` and `cases.scenes` run the program.
//!
//! # Contracts
//!
//! - `print_turns` (private): if it returns Ok, a writer that tells its bytes got the text of each record by the instructions
//!   before and up to its end and the state there, which its records end in, and what ends a list of events. A refusal names
//!   the first record that doesn't follow.
//! - `print_all_long` (private): if it returns Ok, a writer that tells its bytes got a line for each guest of the store, by rising
//!   number: after that of `print_guests` the end of the state that its records end in, how many threads were made, the longest
//!   turn that its quantum ended, how many bytes it read, and the length of its program and the first bytes of that one's
//!   digest; or that its records are no recording.
//! - `print_elf` (private): if it returns Ok, a writer that tells its bytes got the file of the guest's opening.
//! - `print_guests`, `print_records` (private): if they return Ok, a writer that tells its bytes got just these lines of
//!   trace_text: a line for each guest of the store, by rising number; for each record of the guest. That each command calls its own
//!   of these, over a buffer of blocks, is tested.
#![tactic(auto)]

mod guests;
mod long_list;
mod program_files;
mod tally;
mod turns;

pub use guests::{dump, list, name_of, print_guest};
pub use long_list::list_long;
pub use program_files::put_elf;
pub use turns::dump_turns;

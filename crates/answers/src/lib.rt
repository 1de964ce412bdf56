//! What the lines of the program print of a verified recording: its end, its output, and what is asked of its places.
//!
//! Tests: program_tests; `cases.lines`, `cases.asks` and `cases.scenes` run the program.
//!
//! # Contracts
//!
//! - `print_told`, `print_back`, `print_last` (private): if they return Ok, a writer that tells its bytes got just these lines of
//!   trace_text and end_text: of the number of records and instructions of the recording, its end and, if asked for, what ended the
//!   guest; the state n instructions before a place (none for `replay --at`), with the bytes of memory that are asked for; and what
//!   `changes::print_changes` ensures of the changes before a place. A place outside is refused as `PastEnd` or `BeforeStart`. That
//!   each command calls its own of these, over a buffer of blocks, is tested.
//! - `answer_line` (private): a line of `ask` is answered as `asking::answer` ensures it of what the line asks, with the choices of the
//!   recording, or with the help. After `quiet` moves are quiet, after `full` they aren't, and after any other line they are as before
//!   (`quiet_after`). It is refused only if it asks nothing, or for a reason that what it asks for may have, by a line that begins with
//!   `rrv: `; which text follows that is tested. The cursor keeps its recording, and after a refusal its place.
//!   `answer_input` (private): so is a line that is too long, or no text, of which it is said just that, or that there was no memory to
//!   say it; and just `quit` ends.
//! - `Dialogue::new` (private): lines begin at the start, where moves are quiet if that is asked for. That it is by `--short` is tested.
//! - `answer_lines` (private): if it returns Ok, a writer that tells its bytes got the answers to some lines, one after the other and none
//!   after `quit`, each from where the one before it left the cursor, and after each a line of a point. That these are all lines of
//!   standard input, and how long one may be, is tested. So is what is shown at a terminal.
//! - `write_core_of` (private): why no core file is made. That it gets its name once it is whole, and that no file of another program is
//!   removed, is tested.
#![tactic(auto)]

mod ask;
mod choosing;
mod core_files;
mod dialogue;
mod input_lines;
mod part_files;
mod questions;
mod replaying;
mod search_progress;
mod states;

pub use questions::answer;
pub use replaying::tell;

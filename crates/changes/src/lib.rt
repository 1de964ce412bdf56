//! What is printed of a place of a verified recording, and the changes of some bytes before it.
//!
//! Tests: none; `cases.lines` runs the program.
//!
//! # Contracts
//!
//! - `print_changes`: if it returns Ok, a writer that tells its bytes got the text of the last changes of the watched bytes
//!   before the cursor's place, the last first (`AreLastChanges`): as many as are asked for, or all. Each is the greatest place
//!   below the one before it whose instruction changes one of the bytes. Of each it got the state before it, or its line, and
//!   then the bytes of memory that are asked for. If there is no change it got `unchanged`.
//! - `print_state`: the lines of the state at the cursor's place, by the definition, and then those bytes.
//! - Neither refuses a place. `print_changes` is refused only for want of memory or of a reader, and `print_state` only for
//!   want of a reader. Where the cursor stands after `print_changes` is in no contract, nor how often a span is searched: a byte
//!   is searched for again once its last change is passed, and not before.
#![tactic(auto)]

mod change_line;
mod printing;
mod searching;
mod shown;

pub use printing::{print_changes, print_state};
pub use shown::Shown;

//! Texts that another chose, as they are printed: words of a line, names of files, questions.
//!
//! Tests: program_tests; `cases.escapes` runs the program.
//!
//! # Contracts
//!
//! - `Escaped`: its text has each byte of a control character as `\x` and two hexadecimal digits, and every other character as it is.
//!   Control characters are C0 (0 to 31), DEL (127), and C1 (128 to 159, which have two bytes each in UTF-8). Of a text of more characters
//!   than it may have the first are printed, and `..` after them.
//! - `printable_is_kept`: a text without control characters, of no more characters than it may have, is printed as it is.
//!   `nothing_is_controlled`: what is printed of a text has no control character.
#![tactic(auto)]

mod escaped;
mod laws;

pub use escaped::Escaped;
pub use laws::{nothing_is_controlled, printable_is_kept};

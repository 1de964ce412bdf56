//! What is asked of a verified recording, one question after the other, from a place to the next.
//!
//! Tests: none; `cases.asks` and `cases.lines` run the program.
//!
//! # Contracts
//!
//! - `answer`: the cursor goes where the question leads from its place (`Goes`): to a place, n instructions back or forward, or
//!   to the last or the next change of a byte. It stays if there is none, and if only the place is asked about. A writer that
//!   tells its bytes then got just the text of the answer (`found_text`), over the state that the definitions have at that
//!   place. If moves are quiet, the text of a move is that of `where` there; of other questions it is the same (`printed_for`). A
//!   refusal comes exactly outside the recording, and within it only for want of memory; the cursor is then as before, and nothing
//!   is printed. If output fails, the cursor is where the question leads.
//! - `first_thread`: the thread whose instruction comes next, and at the end that of the last one; 0 if there is no instruction.
//! - `place_in`: the place that a line names.
#![tactic(auto)]

mod answers;
mod going;
mod places;
mod printing;

pub use answers::answer;
pub use places::{first_thread, place_in};

//! A cursor over a verified recording, which goes back and forward, and to the last change of a byte.
//!
//! Tests: replay_cases, program_tests.
//!
//! # Contracts
//!
//! - A `Cursor` is known by its value: the recording, the place, and the guest, which is in the state there, by the definition
//!   (`guest`). The place is at most the total (`place`).
//! - `Cursor::new` stands at the start, where nothing ran. `seek`, `back` and `forward` go to a place. `BeforeStart` and
//!   `PastEnd` come exactly outside 0 and the total, and after each refusal the cursor is as before.
//! - `executed`: what ran for the guest at the place, at most what `state_at` may run.
//! - `last_change`: the greatest place below this one whose instruction changes the byte at an address, or whether there is
//!   one; the cursor then stands there, and stays if there is none. It goes back from checkpoint to checkpoint and runs each
//!   instruction below the place once at most, and then seeks the place found; that cost is in no contract.
//! - `next_change`: the least place after this one whose instruction changes the byte at an address, if there is one; the cursor
//!   then stands there, and stays if there is none. It runs on from the place, some thousand instructions at a time, tells a
//!   `SearchWatch` how far it is, and runs those among which there is one again, one by one.
//! - `last_change_in_spans`: the same, clause for clause, on several threads, each of which searches spans between checkpoints. How
//!   many spans there are, and that they are searched at once, is in no contract.
//! - `forward`, and `seek` to a place ahead, go on with a copy of the guest if no complete checkpoint lies in between. A copy is
//!   one of each mapped page and thread: the guest itself would be lost if a growth is refused on the way, and the cursor has to
//!   stay then. Each other move opens the guest anew, puts every checkpoint at or before its place onto the opening, one after the other, and runs on
//!   from there. To go back through K checkpoints puts K * K / 2 of them, and each has the lines that changed since the one
//!   before it. Which of these is done is in no contract.
//! - `replay --at`, `back` and `last` call these. `replay_cases` has rows of them.
#![tactic(auto)]

mod cursor;
mod searching;

pub use cursor::Cursor;
pub use faults::SeekFault;
pub use searching::SearchWatch;

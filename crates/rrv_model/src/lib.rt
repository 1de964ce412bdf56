//! The machine and its recordings: the types, the limits, and the definitions of `specs/`.
//!
//! Tests: none; worked examples are computed in `proofs/`, and tests of the crates above go by these definitions.
//!
//! # Contracts
//!
//! The definitions, and laws above them. Each law is a public function with an empty body (`src/laws.rt`).
//!
//! - `one_row`: a word stands in one row of the instruction table at most.
//! - `one_state_after_call`: a state, a thread and a call's record leave one state after.
//! - `one_state_after_frame`: a state and a frame leave one state after.
//! - `one_spelling`, `one_reading`: a record has one text. Bytes that begin with a record's text determine the record and the
//!   rest.
//! - `beginnings_are_recordings`: a beginning of a recording that isn't empty is a recording.
//! - `one_end`: items leave one state after all their frames.
//! - `frames_append`: a frame that goes on from a recording's end lengthens the recording.
//! - `one_batch`: a body is the text of one list of records at most.
//! - `one_recovery`: bodies give one list of recovered records at most.
//! - `mark_is_no_text`, `mark_is_told`, `mark_adds_none`: the Mark is the text of no records; it is one of the bodies exactly if one of the
//!   batches has no records; and bodies without it hold the same records if it is added.
//! - `old_guests_need_no_mark`: each record of a guest of version 1 may stand before the Mark.
//! - `beginnings_are_recovered`: the first of some bodies give a beginning of what all of them give.
//! - `limits_are_these`: each limit is its number.
//! - `highest_free_is_found`: the search for a free place finds the highest, and none only if there is none.
//! - `openings_are_states`: a guest starts in a state, with all rules that hold of every state.
//! - `frames_keep_states`: a frame from a state leads to a state, whatever was answered.
//! - `recorded_states_are_states`: at each count of its instructions a recorded guest was in a state.
//! - `checkpoints_exist`: a state that runs and has no reservation is described, against any state of its version with its
//!   opening break, by parts that have a text.
//! - `End::runs_thread`: whether a thread ran in a frame that ended so; `End::is_preempt`: whether that was preempted;
//!   `End::is_expiry`: whether the time of a wait was over; `End::call`, `End::fault`: the call or the fault that it ended in;
//!   `End::guest_end`: the guest's end, if the frame ended the guest.
//! - `Version::live_threads`: how many threads of a guest of that version may live at once.
//! - `End::kind`, `Item::kind`: the kind of its record. `Kind::number`, `Kind::from_number`, `Kind::name`: a kind's byte, both ways,
//!   and its word; `GuestEnd::name`: the word of a guest's end.
//! - `Item::into_opening`: the opening that an item is; None exactly if it is another. `Opening::into_name`: its name.
#![tactic(auto)]

pub use outcomes::refusal;

pub mod fields;
pub mod instr;
pub mod laws;
pub mod limits;
pub mod machine;
pub mod name;
pub mod record;
pub mod sequence;
pub mod sink;
pub mod syscall;

//! Replays guests: reads the records of one, verifies each against what the guest's state makes of it, and goes to any
//! place of a verified recording.
//!
//! Tests: replay_cases, session_tests, program_tests.
//!
//! # Contracts
//!
//! - `verify`: a list that it accepts is a recording, and what it returns keeps just these records. Else exactly one fault with
//!   one index, beside `Memory`, fits the list: `BadOpening` if its first record is no recording, `Mismatch` and
//!   `BadCheckpoint` at the first record that doesn't follow from those before it, `BadCheckpoint` exactly if that is the last
//!   part of a checkpoint. `Memory` comes only if the first record is an opening that takes memory: its name is one, none of
//!   the first twelve refusals of a file applies, and the file is within its limit. A checkpoint is never trusted: its parts
//!   are put onto the state of its base, and the outcome is compared with the guest, unless they equal those that `make` makes
//!   of the guest.
//! - A `Verified` is known by its value: the opening, the frames, the places of the complete checkpoints, and the number of
//!   records of some recording (`VerifiedValue`, `Keeps`); its fields are in no contract, and none asks where it comes from.
//!   `len` and `total` are the numbers of records and of instructions. A place is in the list exactly if the last part of a
//!   checkpoint stands after that many instructions (`checkpoints_are_last_parts`). The state at the total is the one that the
//!   records end in (`total_is_the_end`).
//! - `Verified::state_at`: the state at a count of instructions, by the definition, whatever the checkpoints. What ran in the
//!   guest that it returns is at most that count, and at most that count less the place of each complete checkpoint at or
//!   before it. `checkpoint_before` is the last such place.
//! - `Verified::place_at` is the same, as a `Place`: it is known by the recording, how many instructions ran before it and the
//!   guest, which is in the state there. `Place::advance` uses it up, and returns the place one instruction on. `Place::onward`
//!   stays, and returns a place ahead, of a guest in which at most as much ran as in that of `place_at`; that it goes on with a
//!   copy is in no contract. `Memory` is the one refusal of these.
//! - `Verified::output`: after Ok the sink took just the output of the recording, and after a refusal a beginning of it.
//!   `SinkFailed` comes only if the sink refused, and `Memory` only if it did not.
//! - `verify_source`: of an honest source, the same of the records that it stands for. `Unreadable` comes exactly if the source
//!   withheld a record (`Source::withheld`), and those before it are a recording. It names that one, of a source that says
//!   which (`Source::withheld_at`), as the program's own over a store does. So if none is withheld it returns what `verify`
//!   returns, but that `Memory` may come for any record. Of a source that isn't honest, what it returns is of some recording of
//!   as many records. `verify_source_watched` does the same; what it reports to its watch stands in no clause.
//! - `Source::ahead` reads a record before it is asked for: one that isn't given so is not withheld. `verify_source` doesn't call it;
//!   `spans` reads with it ahead of the records that are followed.
//! - `verify_source_end` verifies in the same way, with the same refusals, and returns how many records and instructions there
//!   are, and the guest in the state that the records end in. That it holds the opening, one record more and, twice, the
//!   parts of one checkpoint at a time is seen in the code alone.
//! - `Following` follows records one at a time: those that it followed are a recording (`IsBehind`), which ends in its guest's
//!   state and has as many instructions as its total. A record that is refused is refused as `verify` refuses the list up to
//!   it. `VerifiedEnd::last` is the thread that ran last.
//! - `Claim` passes over records as if they led on: behind records that lead on from where it was made, it fits where the guest
//!   stands (`Fits`), but for the state, which no frame was run for. `LeadsNowhere` comes only if the records can't lead on.
//!   `Claim::begin` is a `Following` that stands in the state of the last checkpoint.
//! - `Keeper` keeps what `verify` keeps, of records that are verified elsewhere: `finish` asks for a proof that they are a recording.
//! - `Place::watch` goes on by instructions of one frame, and tells of the last that changes the byte at an address.
//! - On the line, `spans` verifies the records for each command that replays a guest, by `Following`, `Claim` and `Keeper`. `dump
//!   --places` and `--trace-events` use `Following` alone. `verify_source`, `verify_source_watched` and `verify_source_end` run in
//!   one thread; tests and programs for measuring call them.
#![tactic(auto)]

mod asking;
mod claim;
mod fault;
mod following;
mod forward;
mod keeping;
pub mod laws;
mod opened;
mod outputs;
mod pair;
mod place;
mod position;
mod recording;
mod source;
mod track;
mod verified;
mod verified_end;
mod verifying;
mod walk;

pub use asking::given;
pub use claim::Claim;
pub use fault::{ClaimFault, OutputFault, VerifyFault};
pub use following::Following;
pub use place::Place;
pub use recording::Keeper;
pub use source::Source;
pub use verified::Verified;
pub use verified_end::VerifiedEnd;
pub use verifying::{Watch, verify, verify_source, verify_source_end, verify_source_watched};
